//! The sealing of what waits, in steps between which the repository is used.
ghost use Rattle.std.specs.Prelude.{◌≡◌, ◌⊎◌, ◌↔◌, ◌≤◌, ◌<◌, length, is_err, false, true, IsTrue, OnErr};
ghost use Rattle.ports.specs.Faults.{Counts};
ghost use Rattle.disk_model.specs.Calls.{Kept};
ghost use Rattle.history_model.specs.History.{bodies, is_down};
ghost use Rattle.repo_state.specs.Cores.{StepsSo};
ghost use Rattle.repo_state.specs.Groups.{HasMoved, brings_none, is_sealed, is_syncs, is_under_way, is_waiting};
ghost use Rattle.repo_state.specs.Images.{LeavesSeal};
ghost use Rattle.repo_state.specs.State.{IsSound, LeavesNow, after_seal, breaks, reach};

use crate::sealing::Sealing;
use crate::state::RepoState;
use blob_disk::Disk;
use repo_journal::{At, DiskFault};

impl<D: Disk> RepoState<D> {
    /// The next step of a seal that sees to it that the first `upto` stored entries are sealed: all that wait are written as a
    /// group, its gate is opened, or it is sealed. Between two steps a sync is to be made, of which each step but the last
    /// hands out the call, to be run where nobody waits for the repository, and to be brought to the next one by the seat
    /// that it was handed to. A sync that isn't of this disk, or wasn't run, is made here. Meanwhile more is stored behind
    /// the group, and all is read. It takes no memory. Where it fails nothing more is stored, and what waits can still be read.
    pub fn seal_step(
        &mut self,
        who: u64,
        upto: u64,
        flush: Option<D::Flush>,
    ) -> Result<Sealing<D::Flush>, DiskFault>
        requires upto { upto ≤ length (bodies self.old.history) }
        ensures sealed { is_sealed result ≡ true → upto ≤ self.new.sealed }

        // It fails exactly where a breaking fault is held and not so many are sealed.
        ensures failed { IsTrue (is_err result) ↔ (IsTrue (is_down self.new.history) × (self.new.sealed < upto)) }
        ensures history { self.new.history ≡ after_seal who (is_err result) self.old.history }
        ensures grows { self.old.sealed ≤ self.new.sealed }
        ensures fails { OnErr result (self.new.sealed ≡ self.old.sealed) }
        ensures most { self.new.sealed ≤ length (bodies self.old.history) }
        ensures header { self.new.header ≡ self.old.header }
        ensures opening { self.new.opening ≡ self.old.opening }
        ensures table { self.new.table ≡ self.old.table }
        ensures sound { IsSound self.new.opening self.new.history self.new.sealed (reach self.new) self.new.disk }

        // What is sealed already asks nothing of the disk, and where a breaking fault is held nothing is asked any more.
        ensures still { upto ≤ self.old.sealed → self.new ≡ self.old }
        ensures down { is_down self.old.history ≡ true → self.new ≡ self.old }

        // A group is under way exactly where one is whose sync the seat doesn't bring, and not so many are sealed yet. Then
        // nothing is done.
        ensures waits { IsTrue (is_waiting result) ↔ (IsTrue (is_under_way self.old.left) × IsTrue (brings_none flush upto self.old.sealed self.old.left) × (self.old.sealed < upto)) }
        ensures under { is_waiting result ≡ true → self.new ≡ self.old }

        // Else the group has come further by one stage, and a sync is handed out where that wasn't the last.
        ensures moves { is_err result ≡ false → is_waiting result ≡ false → self.old.sealed < upto → HasMoved self.old.history self.old.sealed self.old.left self.new.sealed self.new.left }
        ensures syncs { is_syncs result ≡ true → is_under_way self.new.left ≡ true }

        // Each image stood for what was sealed before, or for what one stands for now. That is the group's end where its gate may
        // stand open.
        ensures reaches { (reach self.old ≤ self.new.sealed) ⊎ (reach self.new ≡ reach self.old) }
        ensures leaves { IsTrue self.old.disk.honest → LeavesSeal self.old.header self.old.history self.old.sealed self.new.history self.new.sealed (reach self.new) self.old.disk self.new.disk }
        ensures kept { Kept self.old.disk self.new.disk }

        // Where a call of the disk failed, it is known which, and a crash leaves what was sealed alone if the gate wasn't to be
        // opened yet.
        ensures leaves_now { LeavesNow self.new }

        // The disk fails it only where a call of it failed.
        ensures faults { Counts self.old.disk.faults self.new.disk.faults (breaks (is_err result) self.old.history) }

        // It is these steps of the repository of many seats.
        ensures core { StepsSo self.old.header self.old.history self.old.sealed self.old.left who (is_err result) self.new.history self.new.sealed self.new.left }
    {
        // It keeps its rules.
        let _ = &self.disk;
        if upto <= self.sealed {
            return Ok(Sealing::Sealed);
        }
        if self.machine.down() {
            return Err(DiskFault);
        }
        let Some(left) = self.left() else {
            return match self.begin_group(who) {
                Ok(flush) => Ok(Sealing::Syncs(flush)),
                Err(fault) => Err(fault),
            };
        };
        let Some(flush) = flush else {
            return Ok(Sealing::UnderWay);
        };
        if left.upto < upto {
            return Ok(Sealing::UnderWay);
        }
        match left.at {
            At::Laid => match self.open_group(who, flush) {
                Ok(flush) => Ok(Sealing::Syncs(flush)),
                Err(fault) => Err(fault),
            },
            At::Opened => match self.close_group(who, flush) {
                Ok(()) => Ok(Sealing::Sealed),
                Err(fault) => Err(fault),
            },
            At::Cut(_) => unreachable!(),
        }
    }
}
