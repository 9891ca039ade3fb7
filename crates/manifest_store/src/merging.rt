//! What a merge leaves unresolved, by its parents' manifests.
ghost use Rattle.std.specs.Prelude.{◌≡◌, ◌+◌, ◌≤◌, ◌<◌, true, is_some, IfOk, IfSome};
ghost use Rattle.history_model.specs.Tree.{files_of};
ghost use Rattle.reply_model.specs.Reply.{unresolved_of};
ghost use Rattle.merge_walk.specs.Table.{entries_under};
ghost use Rattle.merge_walk.specs.Walk.{IsTreeAt};
ghost use Rattle.manifest_store.specs.Manifests.{AreManifests};
ghost use Rattle.manifest_store.specs.Merging.{are_sides_settled, is_settled_by, read_between, root_fsnode};

use crate::store::ManifestStore;
use ancestry::Steps;
use bonsai::Changeset;
use changeset_store::ChangesetStore;
use merge_walk::{Fsnodes, least_unresolved};
use object_id::Id;
use repo_path::RepoPath;
use std::alloc::{AllocError, Global};
use std::marker::Brand;
use std::sync::ledger::{Blank, Ledger};

impl ManifestStore {
    /// The least path that a changeset with two settled parents leaves unresolved between their trees, or none. A step is
    /// the read of a directory: only such are read in which the parents differ and which the changeset doesn't decide as a
    /// whole. For a changeset with one parent at most none is read.
    pub fn left_unresolved_counted<L: Ledger>(
        &self,
        alloc: Global,
        changesets: &ChangesetStore,
        change: &Changeset,
        steps: &mut Steps<L>,
    ) -> Result<Option<RepoPath>, AllocError>
        requires manifests { AreManifests changesets.now.known self.now }
        requires sides { are_sides_settled changesets.now.known self.now change.now.parents ≡ true }
        ensures exact { IfOk result (λ path. path ≡ unresolved_of changesets.now.known change.now change.now.parents) }
        ensures counted { steps.old ≤ steps.new }
        ensures cost { steps.new ≤ steps.old + read_between changesets.now.known self.now change.now change.now.parents }
    {
        let [first, second, ..] = change.parents() else {
            return Ok(None);
        };
        let Some(left) = self.root_of(changesets, first) else {
            unreachable!()
        };
        let Some(right) = self.root_of(changesets, second) else {
            unreachable!()
        };
        let fsnodes = Fsnodes { table: &self.table };
        least_unresolved(alloc, &fsnodes, left, right, change, steps)
    }

    /// The same, where nobody counts.
    pub fn left_unresolved(
        &self,
        alloc: Global,
        changesets: &ChangesetStore,
        change: &Changeset,
    ) -> Result<Option<RepoPath>, AllocError>
        requires manifests { AreManifests changesets.now.known self.now }
        requires sides { are_sides_settled changesets.now.known self.now change.now.parents ≡ true }
        ensures { IfOk result (λ path. path ≡ unresolved_of changesets.now.known change.now change.now.parents) }
    {
        left_uncounted::<Brand>(self, alloc, changesets, change, Blank::new(1))
    }

    /// Whether both parents of a changeset are settled, if it has two.
    pub fn has_sides(&self, changesets: &ChangesetStore, change: &Changeset) -> bool
        ensures { result ≡ are_sides_settled changesets.now.known self.now change.now.parents }
    {
        let [first, second, ..] = change.parents() else {
            return true;
        };
        self.has_changeset(changesets, first) && self.has_changeset(changesets, second)
    }

    // Whether the changeset with this id is settled.
    fn has_changeset(&self, changesets: &ChangesetStore, id: &Id) -> bool
        ensures { result ≡ is_settled_by changesets.now.known self.now id.now }
    {
        match changesets.number_of(id) {
            Some(number) => self.is_settled(number),
            None => false,
        }
    }

    // The id of the root's fsnode of the changeset with this id, if it is settled.
    fn root_of(&self, changesets: &ChangesetStore, id: &Id) -> Option<Id>
        requires manifests { AreManifests changesets.now.known self.now }
        ensures settled { is_some result ≡ is_settled_by changesets.now.known self.now id.now }
        ensures root { IfSome result (λ root. root ≡ root_fsnode changesets.now.known id.now) }
        ensures tree { IfSome result (λ root. IsTreeAt (entries_under self.now.nodes) root (files_of changesets.now.known id.now)) }
    {
        let number = changesets.number_of(id)?;
        let roots = self.table.roots(number)?;
        Some(roots.fsnode)
    }
}

// The same, where nobody reads the count of steps.
fn left_uncounted<L: Ledger>(
    store: &ManifestStore,
    alloc: Global,
    changesets: &ChangesetStore,
    change: &Changeset,
    blank: Blank,
) -> Result<Option<RepoPath>, AllocError>
    requires name { blank.name ≡ L.name }
    requires parts { blank.parts ≡ L.parts }
    requires some { 0 < blank.parts }
    requires manifests { AreManifests changesets.now.known store.now }
    requires sides { are_sides_settled changesets.now.known store.now change.now.parents ≡ true }
    ensures { IfOk result (λ path. path ≡ unresolved_of changesets.now.known change.now change.now.parents) }
{
    let mut steps = Steps::<L>::new(blank);
    store.left_unresolved_counted(alloc, changesets, change, &mut steps)
}
