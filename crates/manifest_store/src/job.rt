//! The next job for a changeset: of those that are reached from it.
ghost use Rattle.std.specs.Prelude.{◌≡◌, ◌<◌, ◌≤◌, ℕ, Some, true, false, length, IfOk, IfSome, IfNone};
ghost use Rattle.std.specs.Option.{option_and_then, option_map_or};
ghost use Rattle.std.specs.FinMap as map;
ghost use Rattle.bonsai.specs.View.{edits_view};
ghost use Rattle.node_table.specs.Table.{is_settled};
ghost use Rattle.changeset_store.specs.Fork.{IsAncestor};
ghost use Rattle.manifest_store.specs.Manifests.{AreManifests};
ghost use Rattle.changeset_store.specs.Store.{changeset_at, parent_at, second_parent_at};
ghost use Rattle.changeset_store.specs.Pasts.{past_at};
ghost use Rattle.derive_step.specs.Views.{before_seen};
ghost use Rattle.manifest_store.specs.Deciding.{IsMadeBy};
ghost use Rattle.manifest_store.specs.Dirs.{AreDirs};
ghost use Rattle.manifest_store.specs.Jobs.{AreDeletionsOf, IsJobIn, IsNext, IsReached, is_ready as is_ready_in};
ghost use Rattle.manifest_store.specs.Parents.{AreParentsOf, IsParentOf};

use crate::apart::add_apart;
use crate::deletions::deletions_from;
use crate::dirs::parent_nodes;
use crate::store::ManifestStore;
use bonsai::Edit;
use changeset_store::ChangesetStore;
use derive_step::{Deletions, Job, Parent, Parents};
use node_table::Roots;
use std::alloc::{AllocError, Global};

// The binary digits of a distance in a chain, which has at most 2,147,483,648 changesets.
const MOST_DIGITS: u32 = 31;

impl ManifestStore {
    /// The job to derive the manifests of a changeset that is reached from a number through parents and isn't settled, and
    /// whose parents are, or `None` where all that are reached are settled. Of its parents' nodes it has those of the
    /// directories above the change paths, and of those of which both have different unodes.
    pub fn next_job(
        &self,
        alloc: Global,
        changesets: &ChangesetStore,
        number: u32,
    ) -> Result<Option<Job>, AllocError>
        requires manifests { AreManifests changesets.now.known self.now }
        requires known { number < length changesets.now.known }
        ensures { IfOk result (λ next. IsNext changesets.now.known self.now number next) }
    {
        match self.unsettled_of(changesets, number) {
            Some(oldest) => Ok(Some(self.job_of(alloc, changesets, oldest)?)),
            None => Ok(None),
        }
    }

    // Of the changesets that are reached from a number, one that isn't settled and whose parents are: the oldest of the
    // chain of first parents that isn't settled, or else of the chain of its second parent, and so on. The numbers fall.
    fn unsettled_of(&self, changesets: &ChangesetStore, number: u32) -> Option<u32>
        requires manifests { AreManifests changesets.now.known self.now }
        requires known { number < length changesets.now.known }
        ensures none { IfNone result ((m : ℕ) → IsReached changesets.now.known m number → is_settled self.now m ≡ true) }
        ensures reached { IfSome result (λ oldest. IsReached changesets.now.known oldest number) }
        ensures ready { IfSome result (λ oldest. is_ready_in changesets.now.known self.now oldest ≡ true) }
    {
        if self.is_settled(number) {
            return None;
        }
        let mut oldest = self.oldest_in_chain(changesets, number);
        while let Some(second) = self.unsettled_second(changesets, oldest) {
            oldest = self.oldest_in_chain(changesets, second);
        }
        Some(oldest)
    }

    // The second parent of a changeset, if it has one that isn't settled.
    fn unsettled_second(&self, changesets: &ChangesetStore, number: u32) -> Option<u32>
        requires { number < length changesets.now.known }
        ensures second { IfSome result (λ second. (second_parent_at changesets.now.known number ≡ Some second) × (second < number) × (is_settled self.now second ≡ false)) }
        ensures none { IfNone result (option_map_or (is_settled self.now) (second_parent_at changesets.now.known number) true ≡ true) }
    {
        let second = changesets.second_parent(number)?;
        if self.is_settled(second) {
            return None;
        }
        Some(second)
    }

    // The oldest changeset that isn't settled in the chain of one that isn't. Its first parent is, if it has one.
    fn oldest_in_chain(&self, changesets: &ChangesetStore, number: u32) -> u32
        requires manifests { AreManifests changesets.now.known self.now }
        requires known { number < length changesets.now.known }
        requires unsettled { is_settled self.now number ≡ false }
        ensures in_chain { IsAncestor changesets.now.known result number }
        ensures unsettled { is_settled self.now result ≡ false }
        ensures first_settled { option_map_or (is_settled self.now) (parent_at changesets.now.known result) true ≡ true }
        ensures earlier { result ≤ number }
    {
        let mut oldest = self.jump_back(changesets, number);
        while let Some(parent) = changesets.parent(oldest) {
            if self.is_settled(parent) {
                return oldest;
            }
            oldest = parent;
        }
        oldest
    }

    // A changeset of the chain of one that isn't settled, which isn't either. It is the oldest such, since those that are
    // settled are a front of the chain: it jumps by ever shorter distances, as long as it comes to one that isn't settled.
    fn jump_back(&self, changesets: &ChangesetStore, number: u32) -> u32
        requires manifests { AreManifests changesets.now.known self.now }
        requires known { number < length changesets.now.known }
        requires unsettled { is_settled self.now number ≡ false }
        ensures in_chain { IsAncestor changesets.now.known result number }
        ensures unsettled { is_settled self.now result ≡ false }
        ensures earlier { result ≤ number }
    {
        let mut oldest = number;
        for exponent in (0..MOST_DIGITS).rev() {
            if let Some(above) = changesets.jump(oldest, exponent)
                && !self.is_settled(above)
            {
                oldest = above;
            }
        }
        oldest
    }

    // The job of a changeset whose parents are settled, those that it has.
    fn job_of(
        &self,
        alloc: Global,
        changesets: &ChangesetStore,
        number: u32,
    ) -> Result<Job, AllocError>
        requires manifests { AreManifests changesets.now.known self.now }
        requires known { number < length changesets.now.known }
        requires ready { is_ready_in changesets.now.known self.now number ≡ true }
        ensures number { IfOk result (λ job. job.number ≡ number) }
        ensures job { IfOk result (λ job. IsJobIn (past_at changesets.now.known number) job) }
    {
        let commit = changesets.shared_at(number)?;
        let edits = commit.changeset().edits();
        let parents = self.parents_of(alloc, changesets, number, edits)?;
        let deletions = self.deletions_of(alloc, changesets, number, edits)?;
        Ok(Job {
            number,
            commit,
            parents,
            deletions,
        })
    }

    // What a job with these edits has of the files that come and go.
    fn deletions_of(
        &self,
        alloc: Global,
        changesets: &ChangesetStore,
        number: u32,
        edits: &[Edit],
    ) -> Result<Deletions, AllocError>
        requires manifests { AreManifests changesets.now.known self.now }
        requires known { number < length changesets.now.known }
        requires ready { is_ready_in changesets.now.known self.now number ≡ true }
        requires edits { IsMadeBy (changeset_at changesets.now.known number) (edits_view edits.now) }
        ensures { IfOk result (λ deletions. AreDeletionsOf (past_at changesets.now.known number) deletions) }
    {
        let first = self.roots_of_parent(changesets.parent(number));
        let second = self.roots_of_parent(changesets.second_parent(number));
        deletions_from(alloc, &self.table, &first, &second, edits)
    }

    fn roots_of_parent(&self, parent: Option<u32>) -> Option<Roots>
        ensures { result ≡ option_and_then (λ p. map.get self.now.roots p) parent }
    {
        self.table.roots(parent?)
    }

    // What a job with these edits needs of the parents.
    fn parents_of(
        &self,
        alloc: Global,
        changesets: &ChangesetStore,
        number: u32,
        edits: &[Edit],
    ) -> Result<Parents, AllocError>
        requires manifests { AreManifests changesets.now.known self.now }
        requires known { number < length changesets.now.known }
        requires ready { is_ready_in changesets.now.known self.now number ≡ true }
        ensures { IfOk result (λ parents. AreParentsOf changesets.now.known self.now number (edits_view edits.now) parents) }
    {
        let first = self.parent_of(alloc, changesets.parent(number), edits)?;
        let second = self.parent_of(alloc, changesets.second_parent(number), edits)?;
        match (first, second) {
            (Some(mut first), Some(mut second)) => {
                add_apart(alloc, &self.table, &mut first, &mut second)?;
                Ok(Parents::Two(first, second))
            }
            (Some(first), None) => Ok(Parents::One(first)),
            (None, _) => Ok(Parents::Absent),
        }
    }

    // What a job with these edits needs of a parent, if there is one.
    fn parent_of(
        &self,
        alloc: Global,
        parent: Option<u32>,
        edits: &[Edit],
    ) -> Result<Option<Parent>, AllocError>
        ensures of { IfOk result (λ there. IsParentOf parent self.now (edits_view edits.now) there) }
        ensures dirs { IfOk result (λ there. IfSome there (λ p. AreDirs self.now.nodes (before_seen p.root) p.dirs)) }
    {
        match parent {
            Some(parent) => parent_nodes(alloc, &self.table, parent, edits),
            None => Ok(None),
        }
    }
}
