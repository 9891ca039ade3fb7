//! Different changesets with one id.
ghost use Rattle.std.specs.Prelude.{◌≡◌, [], true, false, bytes_eq, IfNone};
ghost use Rattle.changeset_model.specs.Changeset.{spelling};
ghost use Rattle.reply_model.specs.Reply.{collides, first_collision};
ghost use Rattle.changeset_store.specs.Grown.{with_known, IsAlone, AreAlone};
ghost use Rattle.changeset_store.specs.Shared.{values};

use crate::store::ChangesetStore;
use bonsai::{Changeset, Commit};
use object_id::Id;
use std::sync::Arc;

impl ChangesetStore {
    /// Whether another changeset than this one is known by its id.
    pub fn is_other(&self, commit: &Commit) -> bool
        ensures found { result ≡ collides self.now.known commit.now }
        ensures alone { result ≡ false → IsAlone self.now.known commit.now }
    {
        match self.get(&commit.id()) {
            Some(known) => !is_same(known.changeset(), commit.changeset()),
            None => false,
        }
    }

    /// The id of the first of these that is, by its id, another changeset than one known or one before it.
    pub fn first_collision(&self, new: &[Arc<Commit>]) -> Option<Id>
        ensures found { result ≡ first_collision self.now.known (values new.now) }
        ensures alone { IfNone result (AreAlone self.now.known (values new.now)) }
    {
        'new: for (i, commit) in new.iter().enumerate() {
            if self.is_other_with(&new[..i], commit) {
                return Some(commit.id());
            }
        }
        None
    }

    // Whether another changeset than this one has its id, among those known and some others.
    fn is_other_with(&self, before: &[Arc<Commit>], commit: &Commit) -> bool
        ensures found { result ≡ collides (with_known self.now.known (values before.now)) commit.now }
        ensures alone { result ≡ false → IsAlone (with_known self.now.known (values before.now)) commit.now }
    {
        self.is_other(commit) || is_other_among(before, commit)
    }
}

fn is_other_among(before: &[Arc<Commit>], commit: &Commit) -> bool
    ensures found { result ≡ collides (with_known [] (values before.now)) commit.now }
    ensures alone { result ≡ false → IsAlone (with_known [] (values before.now)) commit.now }
{
    'before: for earlier in before {
        if earlier.id() != commit.id() {
            continue;
        }
        if !is_same(earlier.changeset(), commit.changeset()) {
            return true;
        }
    }
    false
}

// Whether two changesets have one encoding, and so are one.
fn is_same(left: &Changeset, right: &Changeset) -> bool
    ensures same { result ≡ bytes_eq (spelling left.now) (spelling right.now) }
    ensures one { result ≡ true → left.now ≡ right.now }
{
    // Both keep the rules of a changeset.
    let (_left, _right) = (left.edits().len(), right.edits().len());
    left == right
}
