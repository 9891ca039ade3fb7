//! Changesets with two parents.
ghost use Rattle.std.specs.Prelude.{◌≡◌, ◌≤◌, ◌<◌, true, if◌then◌else◌, length, Some, None, find, option_map, IfSome, IfNone};
ghost use Rattle.std.specs.Option.{option_and_then};
ghost use Rattle.changeset_model.specs.Changeset as model;
ghost use Rattle.reply_model.specs.Reply.{is_merge};
ghost use Rattle.changeset_store.specs.Fork.{following_at, fork_between, IsAncestor, IsFork};
ghost use Rattle.changeset_store.specs.Merges.{nearest_merge_at};
ghost use Rattle.changeset_store.specs.Store.{changeset_at};

use crate::fork::Fork;
use crate::store::ChangesetStore;
use bonsai::Commit;
use object_id::Id;

impl ChangesetStore {
    /// The id of the oldest changeset with two parents among those of the draft's chain that follow the root. It takes no
    /// memory, and goes through those with two parents alone.
    pub fn merge_in_stack(&self, fork: &Fork) -> Option<Id>
        requires { IsFork self.now.known fork.now }
        ensures { result ≡ option_map model.id_of (find is_merge (fork_between self.now.known fork.now).stack) }
    {
        self.oldest_merge(fork.root, fork.draft)
    }

    /// The same of the head's chain.
    pub fn merge_in_range(&self, fork: &Fork) -> Option<Id>
        requires { IsFork self.now.known fork.now }
        ensures { result ≡ option_map model.id_of (find is_merge (fork_between self.now.known fork.now).range) }
    {
        self.oldest_merge(fork.root, fork.head)
    }

    /// The same of the changesets that follow an ancestor in the chain of the last.
    pub fn oldest_merge(&self, ancestor: u32, last: u32) -> Option<Id>
        requires { IsAncestor self.now.known ancestor last }
        ensures { result ≡ option_map model.id_of (find is_merge (following_at self.now.known ancestor last)) }
    {
        let mut oldest = None;
        let mut number = last;
        'merges: while let Some(merge) = self.newest_merge(ancestor, number) {
            let Some(earlier) = self.previous(ancestor, merge) else {
                unreachable!();
            };
            oldest = Some(self.at(merge).id());
            number = earlier;
        }
        oldest
    }

    // The number of the newest changeset with two parents among those that follow an ancestor in the chain of the last.
    fn newest_merge(&self, ancestor: u32, last: u32) -> Option<u32>
        requires { IsAncestor self.now.known ancestor last }
        ensures none { IfNone result (find is_merge (following_at self.now.known ancestor last) ≡ None) }
        ensures ancestor { IfSome result (λ m. IsAncestor self.now.known ancestor m) }
        ensures later { IfSome result (λ m. ancestor < m) }
        ensures earlier { IfSome result (λ m. m ≤ last) }
        ensures merge { IfSome result (λ m. is_merge (changeset_at self.now.known m) ≡ true) }
        ensures same { IfSome result (λ m. find is_merge (following_at self.now.known ancestor last) ≡ find is_merge (following_at self.now.known ancestor m)) }
    {
        let merge = self.nearest_merge(last)?;
        if merge > ancestor { Some(merge) } else { None }
    }

    // The number of the nearest changeset with two parents, from a new one along first parents, itself counted.
    pub(crate) fn merge_of(&self, commit: &Commit, parent: Option<u32>) -> Option<u32>
        requires { IfSome parent (λ p. p < length self.now.known) }
        ensures { result ≡ if is_merge commit.now then Some (length self.now.known) else option_and_then (nearest_merge_at self.now.known) parent }
    {
        if has_two_parents(commit) {
            return Some(self.len());
        }
        match parent {
            Some(parent) => self.nearest_merge(parent),
            None => None,
        }
    }
}

fn has_two_parents(commit: &Commit) -> bool
    ensures { result ≡ is_merge commit.now }
{
    commit.changeset().parents().len() > 1
}
