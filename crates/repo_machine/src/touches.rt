//! The index of the paths that changesets touch: what it rules out, and how it goes on.
ghost use Rattle.std.specs.Prelude.{◌≡◌, ◌<◌, ◌≤◌, ◌++◌, ◌∷◌, [], false, None, IfNone, IfSome};
ghost use Rattle.changeset_store.specs.Store.{changeset_at};
ghost use Rattle.changeset_store.specs.Fork.{IsAncestor, following_at};
ghost use Rattle.path_conflict.specs.Best.{IsBest};
ghost use Rattle.path_conflict.specs.Places.{paths_of};
ghost use Rattle.repo_machine.specs.Clashes.{edited_paths};
ghost use Rattle.repo_machine.specs.Touches.{Covers, is_in_chain};

use changeset_store::{ChangesetStore, Fork};
use repo_path::RepoPath;
use std::alloc::{AllocError, Global};
use touch_index::{Range, TouchIndex};

// How many paths are asked for at about the cost of looking at one changeset.
const PATHS_PER_LOOK: usize = 8;

/// The changesets of the chain of the last.
#[derive(Drop)]
pub(crate) struct ChainOf<'a> {
    store: &'a ChangesetStore,
    last: u32,
}

impl<'a> Range for ChainOf<'a> {
    ghost contains = { λ chain n. is_in_chain chain.store.now.known chain.last n };

    fn contains(&self, number: u32) -> bool {
        let count = self.store.len();
        self.last < count && number < count && self.store.is_ancestor(number, self.last)
    }
}

/// Whether one of these paths may clash with one that the changesets touch which follow an ancestor in the chain of the last,
/// which is indexed. No means that none does. Where there are few of these changesets the answer is yes, since it costs less to look
/// at them.
pub(crate) fn may_clash_since(
    store: &ChangesetStore,
    touches: &TouchIndex,
    alloc: Global,
    outer: &[&RepoPath],
    ancestor: u32,
    last: u32,
) -> bool
    requires covers { Covers touches.now store.now.known }
    requires ancestor { IsAncestor store.now.known ancestor last }
    ensures { result ≡ false → last < touches.now.indexed → IsBest (paths_of outer.now) (edited_paths (following_at store.now.known ancestor last)) None }
{
    // The store keeps its rules.
    let _count = store.len();
    let range = Fork {
        root: ancestor,
        head: last,
        draft: last,
    };
    if store.range_length(&range) as usize <= outer.len() / PATHS_PER_LOOK {
        return true;
    }
    touches.may_clash(alloc, outer, ancestor, &ChainOf { store, last })
}

/// The number of the changeset before one in its chain, if that one follows this ancestor and isn't below this number.
pub(crate) fn earlier_from(
    store: &ChangesetStore,
    ancestor: u32,
    number: u32,
    from: u32,
) -> Option<u32>
    requires { IsAncestor store.now.known ancestor number }
    ensures none { IfNone result (from ≤ number → following_at store.now.known ancestor number ≡ []) }
    ensures ancestor { IfSome result (λ p. IsAncestor store.now.known ancestor p) }
    ensures earlier { IfSome result (λ p. p < number) }
    ensures newest { IfSome result (λ p. following_at store.now.known ancestor number ≡ following_at store.now.known ancestor p ++ changeset_at store.now.known number ∷ []) }
{
    if number < from {
        return None;
    }
    store.previous(ancestor, number)
}

/// Has the index go on to all that is known.
pub(crate) fn index_all(
    touches: &mut TouchIndex,
    alloc: Global,
    store: &ChangesetStore,
) -> Result<(), AllocError>
    requires { Covers touches.old store.now.known }
    ensures { Covers touches.new store.now.known }
{
    let count = store.len();
    'rest: while touches.indexed() < count {
        let changeset = store.at(touches.indexed()).changeset();
        touches.add(alloc, changeset.edits())?;
    }
    Ok(())
}
