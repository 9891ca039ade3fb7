//! What changesets set as copies.
ghost use Rattle.std.specs.Prelude.{◌≡◌, ◌⊎◌, Ok, Err, option_map, IfOk, IfErr};
ghost use Rattle.changeset_model.specs.Changeset.{copies_of};
ghost use Rattle.bonsai.specs.View.{edit_view, edits_view};
ghost use Rattle.reply_model.specs.Reply.{AbsentChangeset, SeenCopies, seen_copies};
ghost use Rattle.repo_calls.specs.Asking.{copies_seen, copy_seen};
ghost use Rattle.repo_machine.specs.Copies.{copies_among, copy_in};

use crate::machine::Machine;
use bonsai::{Change, Changeset, Edit};
use object_id::Id;
use repo_calls::{AskFault, CopiedPath};
use std::alloc::{AllocError, Global};

impl Machine {
    /// The paths that the changeset with this id sets as copies, by rising paths, each with what it was copied from.
    pub fn copies(&self, alloc: Global, id: Id) -> Result<Vec<CopiedPath>, AskFault>
        ensures ok { IfOk result (λ copies. seen_copies self.now.history id ≡ Ok (SeenCopies (copies_seen copies.items))) }
        ensures err { IfErr result (λ e. (e ≡ AskFault.Memory) ⊎ ((e ≡ AskFault.NoChangeset id) × (seen_copies self.now.history id ≡ Err (AbsentChangeset id)))) }
    {
        let Some(commit) = self.changeset(&id) else {
            return Err(AskFault::NoChangeset { id });
        };
        Ok(copied_paths(alloc, commit.changeset())?)
    }
}

/// The same of a changeset that is at hand.
pub fn copied_paths(alloc: Global, changeset: &Changeset) -> Result<Vec<CopiedPath>, AllocError>
    ensures { IfOk result (λ copies. copies_seen copies.items ≡ copies_of changeset.now) }
{
    copies_in(alloc, changeset.edits())
}

fn copies_in(alloc: Global, edits: &[Edit]) -> Result<Vec<CopiedPath>, AllocError>
    ensures { IfOk result (λ copies. copies_seen copies.items ≡ copies_among (edits_view edits.now)) }
{
    let mut copies = Vec::new(alloc);
    'edits: for edit in edits {
        if let Some(copy) = copy_of(alloc, edit)? {
            copies.push(copy)?;
        }
    }
    Ok(copies)
}

// The copy, if the edit sets one.
fn copy_of(alloc: Global, edit: &Edit) -> Result<Option<CopiedPath>, AllocError>
    ensures { IfOk result (λ copy. option_map copy_seen copy ≡ copy_in (edit_view edit.now)) }
{
    match &edit.change {
        Change::Set {
            content: _,
            kind: _,
            size: _,
            copied: Some(source),
        } => Ok(Some(CopiedPath {
            to: edit.path.copy(alloc)?,
            parent: source.parent,
            from: source.path.copy(alloc)?,
        })),
        _ => Ok(None),
    }
}
