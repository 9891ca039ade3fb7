//! Plans of landings, and the room that one needs.
ghost use Rattle.std.specs.Prelude.{◌≡◌, ℕ, false, List, Option, Some, IfOk, IfErr, OnOk};
ghost use Rattle.history_model.specs.History.{Land, is_down};
ghost use Rattle.repo_machine.specs.Held.{HasRoom};
ghost use Rattle.repo_machine.specs.Landings.{IsLandingRefusal};
ghost use Rattle.repo_machine.specs.Plans.{IsAllowed, IsPlan, frame_size, landing_in};
ghost use Rattle.repo_state.specs.Cores.{Plans};
ghost use Rattle.repo_state.specs.State.{HasRecordRoom, LeavesNow};

use crate::state::RepoState;
use blob_disk::Disk;
use object_id::Id;
use repo_calls::Refusal;
use repo_machine::{Plan, Rebased};
use repo_path::BookName;
use std::alloc::{AllocError, Global};

impl<D: Disk> RepoState<D> {
    /// Plans to land a draft on a bookmark for a caller, as `Machine::plan`. The disk isn't asked.
    pub fn plan(
        &self,
        alloc: Global,
        caller: &BookName,
        name: &BookName,
        draft: Id,
    ) -> Result<Plan, Refusal>
        ensures ok { IfOk result (IsPlan self.now.history caller.now name.now draft) }
        ensures allowed { IfOk result (λ plan. IsAllowed self.now.history caller.now plan.touched) }
        ensures up { OnOk result (is_down self.now.history ≡ false) }
        ensures err { IfErr result (IsLandingRefusal self.now.header self.now.history caller.now name.now draft) }

        // It is a step of the repository of many seats, at any moment, after which a seat has this plan.
        ensures core { IfOk result (Plans self.now.header self.now.history self.now.sealed name.now draft) }
    {
        self.machine.plan(alloc, caller, name, draft)
    }

    /// Makes room for a landing, for its record, which then waits, and for one fault after it. The disk isn't asked.
    pub fn reserve(&mut self, alloc: Global, rebased: &Rebased) -> Result<(), AllocError>
        ensures header { self.new.header ≡ self.old.header }
        ensures history { self.new.history ≡ self.old.history }
        ensures disk { self.new.disk ≡ self.old.disk }
        ensures opening { self.new.opening ≡ self.old.opening }
        ensures table { self.new.table ≡ self.old.table }
        ensures sealed { self.new.sealed ≡ self.old.sealed }
        ensures left { self.new.left ≡ self.old.left }
        ensures leaves_now { LeavesNow self.new }
        ensures room { OnOk result ((caller : Option (List ℕ)) → HasRoom self.new.room (Some (Land (landing_in rebased.now caller)))) }
        ensures record_room { OnOk result (HasRecordRoom self.new (frame_size rebased.now)) }
    {
        self.machine.reserve(alloc, rebased)?;
        self.journal.reserve(rebased.frame_length())
    }
}
