//! The sealing of what waits, in one call.
ghost use Rattle.std.specs.Prelude.{◌≡◌, ◌⊎◌, ◌↔◌, ◌≤◌, ◌<◌, length, is_err, false, true, IsTrue, OnErr, OnOk};
ghost use Rattle.ports.specs.Faults.{Counts};
ghost use Rattle.disk_model.specs.Calls.{Kept};
ghost use Rattle.history_model.specs.History.{bodies, is_down};
ghost use Rattle.repo_state.specs.Cores.{SealsSo};
ghost use Rattle.repo_state.specs.Groups.{group_end, is_under_way};
ghost use Rattle.repo_state.specs.Images.{LeavesSeals};
ghost use Rattle.repo_state.specs.State.{IsSound, LeavesNow, after_seal, breaks, reach};

use crate::state::RepoState;
use blob_disk::Disk;
use repo_journal::DiskFault;

impl<D: Disk> RepoState<D> {
    /// Sees to it that the first `upto` stored entries are sealed: the seat `who` seals all that wait, with two syncs of the
    /// disk, unless so many are sealed already. A group that is under way is ended first, and all that waited behind it is
    /// sealed then, if so many aren't yet. It takes no memory. Where it fails nothing more is stored, and what waits can still
    /// be read.
    pub fn seal(&mut self, who: u64, upto: u64) -> Result<(), DiskFault>
        requires upto { upto ≤ length (bodies self.old.history) }
        ensures done { OnOk result (upto ≤ self.new.sealed) }

        // It fails exactly where a breaking fault is held and not so many are sealed.
        ensures failed { IsTrue (is_err result) ↔ (IsTrue (is_down self.new.history) × (self.new.sealed < upto)) }
        ensures history { self.new.history ≡ after_seal who (is_err result) self.old.history }
        ensures grows { self.old.sealed ≤ self.new.sealed }
        ensures fails { OnErr result ((self.new.sealed ≡ self.old.sealed) ⊎ (self.new.sealed ≡ group_end self.old.sealed self.old.left)) }
        ensures most { self.new.sealed ≤ length (bodies self.old.history) }
        ensures header { self.new.header ≡ self.old.header }
        ensures opening { self.new.opening ≡ self.old.opening }
        ensures table { self.new.table ≡ self.old.table }
        ensures sound { IsSound self.new.opening self.new.history self.new.sealed (reach self.new) self.new.disk }

        // What is sealed already asks nothing of the disk, and where a breaking fault is held nothing is asked any more.
        ensures still { upto ≤ self.old.sealed → self.new ≡ self.old }
        ensures down { is_down self.old.history ≡ true → self.new ≡ self.old }

        // It leaves no group under way, unless it asked nothing.
        ensures idle { self.old.sealed < upto → is_under_way self.new.left ≡ false }

        // Each image stood for what was sealed before, for this and the group that was under way, or for what one stands for now.
        ensures leaves { IsTrue self.old.disk.honest → LeavesSeals self.old.header self.old.history self.old.sealed (group_end self.old.sealed self.old.left) self.new.history self.new.sealed (reach self.new) self.old.disk self.new.disk }
        ensures kept { Kept self.old.disk self.new.disk }

        // Where a call of the disk failed, it is known which, and a crash leaves what was sealed alone if the gate wasn't to be
        // opened yet.
        ensures leaves_now { LeavesNow self.new }

        // The disk fails it only where a call of it failed.
        ensures faults { Counts self.old.disk.faults self.new.disk.faults (breaks (is_err result) self.old.history) }

        // It is these steps of the repository of many seats.
        ensures core { SealsSo self.old.header self.old.history self.old.sealed self.old.left who (is_err result) self.new.history self.new.sealed self.new.left }
    {
        // It keeps its rules.
        let _ = &self.disk;
        if upto <= self.sealed {
            return Ok(());
        }
        if self.machine.down() {
            return Err(DiskFault);
        }
        match self.end_group(who) {
            Ok(()) => {
                if upto <= self.sealed() {
                    return Ok(());
                }
                self.seal_rest(who)
            }
            Err(fault) => Err(fault),
        }
    }
}
