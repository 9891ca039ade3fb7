//! Changesets that become known if they aren't.
ghost use Rattle.std.specs.Prelude.{◌≡◌, ◌≤◌, ◌<◌, ◌+◌, [], length, map, vec_capacity};
ghost use Rattle.std.specs.List.{AllByRecursion};
ghost use Rattle.std.specs.Arc.{arc_value};
ghost use Rattle.changeset_store.specs.Grown.{adding_one, adding, CanAddOne, CanAdd};
ghost use Rattle.changeset_store.specs.Shared.{values};
ghost use Rattle.changeset_store.specs.Store.{changeset_at};

use crate::store::ChangesetStore;
use bonsai::Commit;
use std::sync::Arc;

impl ChangesetStore {
    /// Adds those that aren't known, and notes the number of each, for which there is memory.
    pub fn add_all(&mut self, new: Vec<Arc<Commit>>, numbers: &mut Vec<u32>)
        requires room { length new.items ≤ self.old.room }
        requires empty { numbers.old.items ≡ [] }
        requires capacity { length new.items ≤ vec_capacity numbers.old }
        requires can { CanAdd self.old.known (values new.items) }
        ensures known { self.new.known ≡ adding self.old.known (values new.items) }
        ensures numbers { map (changeset_at self.new.known) numbers.new.items ≡ values new.items }
        ensures within { AllByRecursion (λ n. n < length self.new.known) numbers.new.items }
    {
        let mut rest = new.into_iter();
        while let Some(commit) = rest.next() {
            let number = self.add_one(commit);
            numbers.push_reserved(number);
        }
    }

    // The number of a changeset, which is added if it isn't known.
    fn add_one(&mut self, commit: Arc<Commit>) -> u32
        requires room { 0 < self.old.room }
        requires can { CanAddOne self.old.known (arc_value commit) }
        ensures known { self.new.known ≡ adding_one self.old.known (arc_value commit) }
        ensures number { changeset_at self.new.known result ≡ arc_value commit }
        ensures within { result < length self.new.known }
        ensures room { self.old.room ≤ self.new.room + 1 }
    {
        match self.number_of(&commit.id()) {
            Some(number) => number,
            None => self.add(commit),
        }
    }
}
