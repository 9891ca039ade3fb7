//! The three turns of a seal, and all of them at once.
ghost use Rattle.std.specs.Prelude.{◌≡◌, ◌⊎◌, ◌<◌, length, is_err, false, IsTrue, None, OnErr, OnOk};
ghost use Rattle.ports.specs.Faults.{Counts};
ghost use Rattle.disk_model.specs.Calls.{Kept};
ghost use Rattle.history_model.specs.History.{bodies, is_down};
ghost use Rattle.repo_journal.specs.declared.left.At.TheVariants.{Laid, Opened};
ghost use Rattle.repo_state.specs.Cores.{EndsSo, RestSo, TurnSo};
ghost use Rattle.repo_state.specs.Groups.{HasMoved, IsAt, group_end};
ghost use Rattle.repo_state.specs.Images.{LeavesSeal};
ghost use Rattle.repo_state.specs.State.{IsSound, LeavesNow, after_seal, reach};

use crate::state::RepoState;
use blob_disk::Disk;
use repo_journal::{At, DiskFault};

impl<D: Disk> RepoState<D> {
    // All that waits is written as a group.
    pub(crate) fn begin_group(&mut self, who: u64) -> Result<D::Flush, DiskFault>
        requires none { self.old.left ≡ None }
        requires up { is_down self.old.history ≡ false }
        requires some { self.old.sealed < length (bodies self.old.history) }
        ensures history { self.new.history ≡ after_seal who (is_err result) self.old.history }
        ensures sealed { self.new.sealed ≡ self.old.sealed }
        ensures moves { OnOk result (HasMoved self.old.history self.old.sealed self.old.left self.new.sealed self.new.left) }
        ensures header { self.new.header ≡ self.old.header }
        ensures opening { self.new.opening ≡ self.old.opening }
        ensures table { self.new.table ≡ self.old.table }
        ensures sound { IsSound self.new.opening self.new.history self.new.sealed (reach self.new) self.new.disk }
        ensures leaves { IsTrue self.old.disk.honest → LeavesSeal self.old.header self.old.history self.old.sealed self.new.history self.new.sealed (reach self.new) self.old.disk self.new.disk }
        ensures reaches { (reach self.old ≡ self.new.sealed) ⊎ (reach self.new ≡ reach self.old) }
        ensures kept { Kept self.old.disk self.new.disk }
        ensures leaves_now { LeavesNow self.new }
        ensures faults { Counts self.old.disk.faults self.new.disk.faults (is_err result) }
        ensures core { TurnSo self.old.header self.old.history self.old.sealed self.old.left who (is_err result) self.new.history self.new.sealed self.new.left }
    {
        // It keeps its rules.
        let _ = &self.disk;
        let end = self.machine.stored_length();
        self.group_end = end;
        match self.journal.begin(&mut self.disk) {
            Ok(flush) => Ok(flush),
            Err(fault) => {
                self.machine.fault(who, true);
                Err(fault)
            }
        }
    }

    // The gate of the group that is laid is opened.
    pub(crate) fn open_group(&mut self, who: u64, flush: D::Flush) -> Result<D::Flush, DiskFault>
        requires laid { IsAt Laid self.old.left }
        ensures history { self.new.history ≡ after_seal who (is_err result) self.old.history }
        ensures sealed { self.new.sealed ≡ self.old.sealed }
        ensures moves { OnOk result (HasMoved self.old.history self.old.sealed self.old.left self.new.sealed self.new.left) }
        ensures header { self.new.header ≡ self.old.header }
        ensures opening { self.new.opening ≡ self.old.opening }
        ensures table { self.new.table ≡ self.old.table }
        ensures sound { IsSound self.new.opening self.new.history self.new.sealed (reach self.new) self.new.disk }
        ensures leaves { IsTrue self.old.disk.honest → LeavesSeal self.old.header self.old.history self.old.sealed self.new.history self.new.sealed (reach self.new) self.old.disk self.new.disk }
        ensures reaches { (reach self.old ≡ self.new.sealed) ⊎ (reach self.new ≡ reach self.old) }
        ensures kept { Kept self.old.disk self.new.disk }
        ensures leaves_now { LeavesNow self.new }
        ensures faults { Counts self.old.disk.faults self.new.disk.faults (is_err result) }
        ensures core { TurnSo self.old.header self.old.history self.old.sealed self.old.left who (is_err result) self.new.history self.new.sealed self.new.left }
    {
        // It keeps its rules.
        let _ = &self.disk;
        match self.journal.open(&mut self.disk, flush) {
            Ok(flush) => Ok(flush),
            Err(fault) => {
                self.machine.fault(who, true);
                Err(fault)
            }
        }
    }

    // The group whose gate is opened is sealed.
    pub(crate) fn close_group(&mut self, who: u64, flush: D::Flush) -> Result<(), DiskFault>
        requires opened { IsAt Opened self.old.left }
        ensures history { self.new.history ≡ after_seal who (is_err result) self.old.history }
        ensures fails { OnErr result (self.new.sealed ≡ self.old.sealed) }
        ensures moves { OnOk result (HasMoved self.old.history self.old.sealed self.old.left self.new.sealed self.new.left) }
        ensures header { self.new.header ≡ self.old.header }
        ensures opening { self.new.opening ≡ self.old.opening }
        ensures table { self.new.table ≡ self.old.table }
        ensures sound { IsSound self.new.opening self.new.history self.new.sealed (reach self.new) self.new.disk }
        ensures leaves { IsTrue self.old.disk.honest → LeavesSeal self.old.header self.old.history self.old.sealed self.new.history self.new.sealed (reach self.new) self.old.disk self.new.disk }
        ensures reaches { (reach self.old ≡ self.new.sealed) ⊎ (reach self.new ≡ reach self.old) }
        ensures kept { Kept self.old.disk self.new.disk }
        ensures leaves_now { LeavesNow self.new }
        ensures faults { Counts self.old.disk.faults self.new.disk.faults (is_err result) }
        ensures core { TurnSo self.old.header self.old.history self.old.sealed self.old.left who (is_err result) self.new.history self.new.sealed self.new.left }
    {
        // It keeps its rules.
        let _ = &self.disk;
        match self.journal.close(&mut self.disk, flush) {
            Ok(()) => {
                self.sealed = self.group_end;
                Ok(())
            }
            Err(fault) => {
                self.machine.fault(who, true);
                Err(fault)
            }
        }
    }

    // A sync that nobody runs, so that it is made where it is brought to.
    fn flush_here(&mut self) -> D::Flush
        ensures { self.new ≡ self.old }
    {
        self.disk.flush()
    }

    // The group that is under way is sealed, if there is one, its syncs made here.
    pub(crate) fn end_group(&mut self, who: u64) -> Result<(), DiskFault>
        requires up { is_down self.old.history ≡ false }
        ensures history { self.new.history ≡ after_seal who (is_err result) self.old.history }
        ensures done { OnOk result ((self.new.sealed ≡ group_end self.old.sealed self.old.left) × (self.new.left ≡ None)) }
        ensures fails { OnErr result (self.new.sealed ≡ self.old.sealed) }
        ensures header { self.new.header ≡ self.old.header }
        ensures opening { self.new.opening ≡ self.old.opening }
        ensures table { self.new.table ≡ self.old.table }
        ensures sound { IsSound self.new.opening self.new.history self.new.sealed (reach self.new) self.new.disk }
        ensures leaves { IsTrue self.old.disk.honest → LeavesSeal self.old.header self.old.history self.old.sealed self.new.history self.new.sealed (reach self.new) self.old.disk self.new.disk }
        ensures kept { Kept self.old.disk self.new.disk }
        ensures leaves_now { LeavesNow self.new }
        ensures faults { Counts self.old.disk.faults self.new.disk.faults (is_err result) }
        ensures core { EndsSo self.old.header self.old.history self.old.sealed self.old.left who (is_err result) self.new.history self.new.sealed self.new.left }
    {
        // It keeps its rules.
        let _ = &self.disk;
        let Some(left) = self.left() else {
            return Ok(());
        };
        match left.at {
            At::Laid => self.end_laid(who),
            At::Opened => {
                let unmade = self.flush_here();
                self.close_group(who, unmade)
            }
            At::Cut(_) => unreachable!(),
        }
    }

    // The same of a group that is laid.
    fn end_laid(&mut self, who: u64) -> Result<(), DiskFault>
        requires laid { IsAt Laid self.old.left }
        ensures history { self.new.history ≡ after_seal who (is_err result) self.old.history }
        ensures done { OnOk result ((self.new.sealed ≡ group_end self.old.sealed self.old.left) × (self.new.left ≡ None)) }
        ensures fails { OnErr result (self.new.sealed ≡ self.old.sealed) }
        ensures header { self.new.header ≡ self.old.header }
        ensures opening { self.new.opening ≡ self.old.opening }
        ensures table { self.new.table ≡ self.old.table }
        ensures sound { IsSound self.new.opening self.new.history self.new.sealed (reach self.new) self.new.disk }
        ensures leaves { IsTrue self.old.disk.honest → LeavesSeal self.old.header self.old.history self.old.sealed self.new.history self.new.sealed (reach self.new) self.old.disk self.new.disk }
        ensures kept { Kept self.old.disk self.new.disk }
        ensures leaves_now { LeavesNow self.new }
        ensures faults { Counts self.old.disk.faults self.new.disk.faults (is_err result) }
        ensures core { EndsSo self.old.header self.old.history self.old.sealed self.old.left who (is_err result) self.new.history self.new.sealed self.new.left }
    {
        let unmade = self.flush_here();
        match self.open_group(who, unmade) {
            Ok(opened) => self.close_group(who, opened),
            Err(fault) => Err(fault),
        }
    }

    // All that waits is sealed, its syncs made here.
    pub(crate) fn seal_rest(&mut self, who: u64) -> Result<(), DiskFault>
        requires none { self.old.left ≡ None }
        requires up { is_down self.old.history ≡ false }
        requires some { self.old.sealed < length (bodies self.old.history) }
        ensures history { self.new.history ≡ after_seal who (is_err result) self.old.history }
        ensures done { OnOk result ((self.new.sealed ≡ length (bodies self.old.history)) × (self.new.left ≡ None)) }
        ensures fails { OnErr result (self.new.sealed ≡ self.old.sealed) }
        ensures header { self.new.header ≡ self.old.header }
        ensures opening { self.new.opening ≡ self.old.opening }
        ensures table { self.new.table ≡ self.old.table }
        ensures sound { IsSound self.new.opening self.new.history self.new.sealed (reach self.new) self.new.disk }
        ensures leaves { IsTrue self.old.disk.honest → LeavesSeal self.old.header self.old.history self.old.sealed self.new.history self.new.sealed (reach self.new) self.old.disk self.new.disk }
        ensures kept { Kept self.old.disk self.new.disk }
        ensures leaves_now { LeavesNow self.new }
        ensures faults { Counts self.old.disk.faults self.new.disk.faults (is_err result) }
        ensures core { RestSo self.old.header self.old.history self.old.sealed who (is_err result) self.new.history self.new.sealed self.new.left }
    {
        // It keeps its rules.
        let _ = &self.disk;
        match self.begin_group(who) {
            Ok(flush) => {
                drop(flush);
                self.end_group(who)
            }
            Err(fault) => Err(fault),
        }
    }
}
