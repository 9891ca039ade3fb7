//! Manifests, derived a changeset at a time.
ghost use Rattle.std.specs.Prelude.{◌≡◌, ◌<◌, true, false, length, IsOk, IfOk, IfErr, OnOk, OnErr};
ghost use Rattle.history_model.specs.History.{known};
ghost use Rattle.reply_model.specs.After.{Answers, Derives, nothing};
ghost use Rattle.node_table.specs.Table.{is_settled};
ghost use Rattle.changeset_store.specs.Pasts.{past_at};
ghost use Rattle.manifest_store.specs.Jobs.{IsDoneIn, is_ready, settled_by};
ghost use Rattle.manifest_store.specs.Manifests.{AreManifests};
ghost use Rattle.manifest_store.specs.Settling.{IsCollision};
ghost use Rattle.repo_calls.specs.Asking.{fault_answer};
ghost use Rattle.repo_state.specs.Cores.{SettlesSo, TakesJob};
ghost use Rattle.repo_state.specs.Manifests.{IsNextOf};

use crate::state::RepoState;
use blob_disk::Disk;
use derive_step::{Done, Job};
use node_table::TableFault;
use object_id::Id;
use repo_calls::AskFault;
use std::alloc::Global;

impl<D: Disk> RepoState<D> {
    /// The job to derive the manifests of a changeset that isn't settled and whose parents are: of this one, or of one that
    /// it reaches through parents; or `None` where all of these are settled. The disk isn't asked.
    pub fn next_job(&self, alloc: Global, id: Id) -> Result<Option<Job>, AskFault>
        ensures ok { IfOk result (IsNextOf (known self.now.history) self.now.table id) }
        ensures err { IfErr result (λ fault. Answers self.now.header self.now.history (Derives id) (fault_answer fault) nothing) }
        ensures manifests { AreManifests (known self.now.history) self.now.table }

        // It is a step of the repository of many seats, after which it has this job.
        ensures core { IfOk result (TakesJob self.now.header self.now.history self.now.sealed self.now.table) }
    {
        let changesets = self.machine.changesets();
        let Some(number) = changesets.number_of(&id) else {
            return Err(AskFault::NoChangeset { id });
        };
        Ok(self.manifests.next_job(alloc, changesets, number)?)
    }

    /// Puts in what was derived of a changeset, or nothing. One that is settled already, or a parent of which isn't,
    /// changes nothing. The disk isn't asked.
    pub fn settle(&mut self, alloc: Global, done: Done) -> Result<(), TableFault>
        requires known { done.number < length (known self.old.history) }
        requires derived { IsDoneIn (past_at (known self.old.history) done.number) done }
        ensures ok { OnOk result (self.new.table ≡ settled_by (known self.old.history) self.old.table done) }
        ensures err { OnErr result (self.new.table ≡ self.old.table) }
        ensures settled { is_ready (known self.old.history) self.old.table done.number ≡ true → OnOk result (is_settled self.new.table done.number ≡ true) }
        ensures late { is_ready (known self.old.history) self.old.table done.number ≡ false → IsOk result }
        ensures collision { IfErr result (IsCollision (known self.old.history)) }
        ensures manifests { AreManifests (known self.new.history) self.new.table }
        ensures same { self.new ≡ record self.old { table = self.new.table } }

        // It is this step of the repository of many seats, where a job of the changeset was taken.
        ensures core { SettlesSo self.old.header self.old.history self.old.sealed self.old.table done.number result self.new.table }
    {
        self.manifests
            .settle(alloc, self.machine.changesets(), done)
    }
}
