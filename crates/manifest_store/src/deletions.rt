//! The files that come and go at a changeset against its first parent, with that parent's deleted nodes there.
ghost use Rattle.std.specs.Prelude.{◌≡◌, ◌++◌, IfOk};
ghost use Rattle.bonsai.specs.View.{edits_view};
ghost use Rattle.history_model.specs.History.{Known};
ghost use Rattle.history_model.specs.Past.{Past, At};
ghost use Rattle.deleted_step.specs.Steps.{AreHeldAt};
ghost use Rattle.derive_step.specs.Views.{held_in};
ghost use Rattle.manifest_store.specs.Manifests.{IsRight};
ghost use Rattle.manifest_store.specs.Jobs.{AreDeletionsAt};
ghost use Rattle.manifest_store.specs.Deciding.{AreMade};
ghost use Rattle.manifest_store.specs.Moves.{Stands};

use crate::holding::hold_ways;
use crate::moves::{Moved, moved_by};
use bonsai::Edit;
use derive_step::{Deletions, HeldNodes};
use node_table::{NodeTable, Roots};
use repo_path::RepoPath;
use std::alloc::{AllocError, Global};
use std::collections::BTreeMap;

/// What edits and a second parent change of the files under the first parent's roots, or of none.
pub(crate) fn deletions_from(
    alloc: Global,
    table: &NodeTable,
    parent: &Option<Roots>,
    second: &Option<Roots>,
    edits: &[Edit],
) -> Result<Deletions, AllocError>
    requires { AreMade (edits_view edits.now) }
    ensures { (c : Known) (first other : Past) → Stands table.now.nodes parent.now first → Stands table.now.nodes second.now other → IsRight (At c first other) → edits_view edits.now ≡ c.changeset.changes → IfOk result (λ deletions. AreDeletionsAt c first other deletions) }
{
    let Moved { gone, come } = moved_by(alloc, table, parent, second, edits)?;
    let nodes = held_at(alloc, table, parent, &gone, &come)?;
    Ok(Deletions { gone, come, nodes })
}

// The deleted nodes of the parent at these paths and above them.
fn held_at(
    alloc: Global,
    table: &NodeTable,
    parent: &Option<Roots>,
    gone: &[RepoPath],
    come: &[RepoPath],
) -> Result<HeldNodes, AllocError>
    ensures { (past : Past) → Stands table.now.nodes parent.now past → IfOk result (λ nodes. AreHeldAt (held_in nodes) past (gone.now ++ come.now)) }
{
    let mut nodes = BTreeMap::new(alloc);
    let Some(roots) = parent else {
        return Ok(HeldNodes { nodes });
    };
    hold_ways(alloc, table, &roots.deleted, gone, &mut nodes)?;
    hold_ways(alloc, table, &roots.deleted, come, &mut nodes)?;
    Ok(HeldNodes { nodes })
}
