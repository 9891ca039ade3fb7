//! What a load comes to.
ghost use Rattle.std.specs.Prelude.{◌≡◌, [], IfOk, Some};
ghost use Rattle.history_model.specs.Bookmark.{head};
ghost use Rattle.history_model.specs.History.{known};
ghost use Rattle.history_model.specs.Tree.{files_of};
ghost use Rattle.run_gen.specs.Stacks.{main};
ghost use Rattle.manifest_model.specs.Fsnode.{fsnode, fsnode_id};
ghost use Rattle.run_gen.specs.Sums.{SumsUp};

use crate::names::main_name;
use blob_disk::Disk;
use object_id::Id;
use repo_calls::{Question, Seen};
use repo_state::RepoState;
use std::alloc::{AllocError, Global};

/// What a load comes to.
#[derive(Clone, Copy, Debug, PartialEq, Eq)]
pub struct Summary {
    /// Landings of all clients.
    pub landed: u64,
    /// Stored entries.
    pub entries: u64,
    /// The id of the root fsnode of the bookmark's head.
    pub root: Id,
}

// The bookmark's head.
fn head_of<D: Disk>(state: &mut RepoState<D>, alloc: Global) -> Result<Id, AllocError>
    ensures head { IfOk result (λ id. head state.old.history main ≡ Some id) }
    ensures same { state.new.history ≡ state.old.history }
    ensures opening { state.new.opening ≡ state.old.opening }
    ensures sealed { state.new.sealed ≡ state.old.sealed }
{
    let name = main_name(alloc)?;
    match state.look(alloc, 0, &Question::Head(&name)) {
        Ok(Seen::Head(Some(id))) => Ok(id),
        Ok(_) | Err(_) => Err(AllocError),
    }
}

// The id of the root fsnode of a changeset. Where two nodes of it had one id, no root could be told
// from others, and there is no summary, as where memory runs out.
fn root_of<D: Disk>(state: &mut RepoState<D>, alloc: Global, id: Id) -> Result<Id, AllocError>
    ensures root { IfOk result (λ root. root ≡ fsnode_id (fsnode (files_of (known state.old.history) id) [])) }
    ensures same { state.new.history ≡ state.old.history }
    ensures opening { state.new.opening ≡ state.old.opening }
    ensures sealed { state.new.sealed ≡ state.old.sealed }
{
    match state.fsnode(alloc, id, None) {
        Ok(bytes) => Ok(Id::of(bytes.as_slice())),
        Err(_) => Err(AllocError),
    }
}

/// Sums up the load that left this repository. The disk isn't asked.
pub(crate) fn sum_up<D: Disk>(
    state: &mut RepoState<D>,
    alloc: Global,
) -> Result<Summary, AllocError>
    ensures sums { IfOk result (SumsUp state.old.history) }
    ensures same { state.new.history ≡ state.old.history }
    ensures opening { state.new.opening ≡ state.old.opening }
    ensures sealed { state.new.sealed ≡ state.old.sealed }
{
    let counts = state.counts();
    let head = head_of(state, alloc)?;
    let root = root_of(state, alloc, head)?;
    Ok(Summary {
        landed: counts.landings,
        entries: counts.entries,
        root,
    })
}
