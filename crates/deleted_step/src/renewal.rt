//! The nodes of a changeset, each after those under it.
ghost use Rattle.std.specs.Prelude.{map, IfOk};
ghost use Rattle.history_model.specs.Past.{Past};
ghost use Rattle.deleted_step.specs.Unfolded.{Links};
ghost use Rattle.deleted_step.specs.Steps.{IsDoneOf, IsStart};

use crate::closing::{closed, put, put_there};
use crate::done::Done;
use crate::unfolded::{Unfolded, set_above};
use std::alloc::{AllocError, Global};

/// Makes the nodes anew, from the last by the order of paths on, so that each has those under it. The root's is always
/// there.
pub(crate) fn renewed(alloc: Global, mut unfolded: Unfolded) -> Result<Done, AllocError>
    ensures { (first now : Past) (ls : Links) → IsStart first now ls unfolded → IfOk result (λ done. IsDoneOf first now (map (λ l. l.0) ls) done) }
{
    let mut nodes = Vec::with_capacity(alloc, unfolded.places.len() + 1)?;
    while let Some((path, opened)) = unfolded.places.pop_last() {
        let node = closed(alloc, opened)?;
        let id = put_there(alloc, &node, &mut nodes)?;
        set_above(alloc, &mut unfolded, &path, id)?;
    }
    let node = closed(alloc, unfolded.root)?;
    let root = put(alloc, &node, &mut nodes)?;
    Ok(Done { root, nodes })
}
