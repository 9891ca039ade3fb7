//! A disk in memory, whose calls can be made to fail, and which can be crashed.
ghost use Rattle.std.specs.Prelude.{◌≡◌, ◌↔◌, ◌+◌, ◌≤◌, [], length, take, drop, is_ok, is_err, IfOk, OnOk, IsOk, IsErr, IsSome, IsTrue};
ghost use Rattle.std.specs.Option.{ForSome};
ghost use Rattle.ports.specs.Faults.{Counts};
ghost use Rattle.disk_model.specs.Images.{IsImage, Writes, Syncs};
ghost use Rattle.disk_model.specs.Meaning.{IsLong};
ghost use Rattle.disk_model.specs.Calls.{Kept, LeavesOnly, Looked, Did, SameMoment, NextMoment};
ghost use Rattle.blob_disk.specs.Memory.{IsGood, blank, disk_of, holding_all};
ghost use Rattle.blob_disk.specs.Log.{blank_log};
ghost use Rattle.blob_disk.specs.Tally.{called, fresh, is_due, made};
ghost use Rattle.blob_disk.specs.declared.call_kind.CallKind.TheVariants.{Read, Size, Sync, Write};
ghost use Rattle.blob_disk.specs.MemMeaning.{AgreesWith, IsCrashed, meaning_of};
ghost use Rattle.blob_disk.specs.MemSound.{sound};

use crate::call_kind::CallKind;
use crate::calls::Calls;
use crate::content::Content;
use crate::disk::Disk;
use crate::handles::{NoFlush, NoPeer};
use crate::record::{Record, Turn};
use crate::recorder;
use ports::Failed;
use std::alloc::{AllocError, Global};

/// A disk in memory. It has all its room from the start.
#[derive(Drop)]
pub struct MemDisk {
    content: Content,
    log: Option<Record>,
    calls: Calls,
    ghost good: { IsGood content },
    ghost agrees: { AgreesWith content log },
}

impl MemDisk {
    ghost use Rattle.blob_disk.specs.MemDisk.{memory_of, log_of, tally_of};

    /// An empty disk with room for `room` bytes. A call of the list fails: the nth, from 0, of its
    /// kind. So does a write past the room.
    pub fn new(alloc: Global, room: u64, failing: Vec<(CallKind, u64)>) -> Result<Self, AllocError>
        ensures empty { IfOk result (λ disk. memory_of disk ≡ blank room) }
        ensures unrecorded { IfOk result (λ disk. log_of disk ≡ None) }
        ensures uncalled { IfOk result (λ disk. tally_of disk ≡ fresh failing.items) }
    {
        MemDisk::holding(alloc, &[], room, failing)
    }

    /// The same with a record from which each moment can be told: of so many writes and syncs, and
    /// of so many written bytes. A write or a sync for which there is no room in it fails, and
    /// does nothing.
    pub fn recording(
        alloc: Global,
        room: u64,
        turns: u64,
        bytes: u64,
        failing: Vec<(CallKind, u64)>,
    ) -> Result<Self, AllocError>
        ensures empty { IfOk result (λ disk. memory_of disk ≡ blank room) }
        ensures recorded { IfOk result (λ disk. log_of disk ≡ Some (blank_log turns bytes)) }
        ensures uncalled { IfOk result (λ disk. tally_of disk ≡ fresh failing.items) }
    {
        let log = Record::new(alloc, turns as usize, bytes as usize)?;
        Ok(MemDisk {
            content: Content::new(alloc, &[], room as usize)?,
            log: Some(log),
            calls: Calls::new(failing),
        })
    }

    /// A disk with these bytes, all stable.
    pub fn holding(
        alloc: Global,
        bytes: &[u8],
        room: u64,
        failing: Vec<(CallKind, u64)>,
    ) -> Result<Self, AllocError>
        requires { length bytes.now ≤ room }
        ensures stable { IfOk result (λ disk. memory_of disk ≡ holding_all bytes.now room) }
        ensures unrecorded { IfOk result (λ disk. log_of disk ≡ None) }
        ensures uncalled { IfOk result (λ disk. tally_of disk ≡ fresh failing.items) }
    {
        Ok(MemDisk {
            content: Content::new(alloc, bytes, room as usize)?,
            log: None,
            calls: Calls::new(failing),
        })
    }

    /// What a crash leaves where each byte that was written since the last sync that succeeded
    /// holds `fill`, and all others read as they did. All of it is stable, no call is to fail, no
    /// call was counted, and no record is kept.
    pub fn crash(self, fill: u8) -> MemDisk
        ensures bytes { IsCrashed fill (memory_of self) (memory_of result).reads }
        ensures image { IsImage (disk_of (memory_of self)) (memory_of result).reads }
        ensures stable { memory_of result ≡ holding_all (memory_of result).reads (length (memory_of self).marks) }
        ensures unrecorded { log_of result ≡ None }
        ensures uncalled { tally_of result ≡ fresh [] }
    {
        let MemDisk {
            mut content,
            log: _log,
            mut calls,
        } = self;
        content.crash(fill);
        calls.reset();
        MemDisk {
            content,
            log: None,
            calls,
        }
    }

    /// What reads give.
    pub fn bytes(&self) -> &[u8]
        ensures { result.now ≡ (memory_of self.now).reads }
    {
        self.content.bytes()
    }

    /// How many calls of the kind there were, the failed ones too.
    pub fn calls(&self, kind: CallKind) -> u64
        ensures { result ≡ made kind (tally_of self.now) }
    {
        self.calls.made(kind)
    }
}

impl Disk for MemDisk {
    type Flush = NoFlush;

    type Peer = NoPeer;

    ghost use Rattle.blob_disk.specs.MemDisk.{memory_of, log_of, tally_of, told_of, IsWritten, IsSynced};

    ghost meaning = { λ d. meaning_of d.content d.log d.calls };

    ghost sound = { λ d. sound d.content d.log d.calls d.good d.agrees };

    fn size(&mut self) -> Result<u64, Failed>
        ensures size { IfOk result (λ n. ForSome (told_of self.old).reads (λ file. n ≡ length file)) }
        ensures looked { Looked (told_of self.old) (told_of self.new) }
        ensures kept { Kept (told_of self.old) (told_of self.new) }
        ensures time { LeavesOnly (IsImage (told_of self.new).state) (told_of self.old) (told_of self.new) }
        ensures faults { Counts (told_of self.old).faults (told_of self.new).faults (is_err result) }
        ensures still { OnOk result (SameMoment (told_of self.old) (told_of self.new)) }
        ensures quiet { IsSome (told_of self.old).quiet → IsOk result }
        ensures fails { IsErr result ↔ IsTrue (is_due Size (tally_of self.old)) }
        ensures calls { tally_of self.new ≡ called Size (is_err result) (tally_of self.old) }
        ensures same { (memory_of self.new ≡ memory_of self.old) × (log_of self.new ≡ log_of self.old) }
    {
        if self.calls.count(CallKind::Size) {
            return Err(self.calls.fail());
        }
        Ok(self.content.len() as u64)
    }

    fn read_at(&mut self, at: u64, buf: &mut [u8]) -> Result<(), Failed>
        requires { IsLong (told_of self.old).reads (at + length buf.old) }
        ensures bytes { OnOk result (ForSome (told_of self.old).reads (λ file. buf.new ≡ take (length buf.old) (drop at file))) }
        ensures looked { Looked (told_of self.old) (told_of self.new) }
        ensures kept { Kept (told_of self.old) (told_of self.new) }
        ensures time { LeavesOnly (IsImage (told_of self.new).state) (told_of self.old) (told_of self.new) }
        ensures faults { Counts (told_of self.old).faults (told_of self.new).faults (is_err result) }
        ensures quiet { IsSome (told_of self.old).quiet → IsOk result }
        ensures fails { IsErr result ↔ IsTrue (is_due Read (tally_of self.old)) }
        ensures calls { tally_of self.new ≡ called Read (is_err result) (tally_of self.old) }
        ensures same { (memory_of self.new ≡ memory_of self.old) × (log_of self.new ≡ log_of self.old) }
    {
        if self.calls.count(CallKind::Read) {
            return Err(self.calls.fail());
        }
        let at = at as usize;
        buf.copy_from_slice(&self.content.bytes()[at..at + buf.len()]);
        Ok(())
    }

    fn write_at(&mut self, at: u64, bytes: &[u8]) -> Result<(), Failed>
        requires { IsLong (told_of self.old).reads at }
        ensures long { OnOk result (IsLong (told_of self.new).reads (at + length bytes.now)) }
        ensures did { Did (Writes at bytes.now (is_ok result)) (told_of self.old) (told_of self.new) }
        ensures kept { Kept (told_of self.old) (told_of self.new) }
        ensures time { LeavesOnly (IsImage (told_of self.new).state) (told_of self.old) (told_of self.new) }
        ensures faults { Counts (told_of self.old).faults (told_of self.new).faults (is_err result) }
        ensures quiet { ForSome (told_of self.old).quiet (λ most. at + length bytes.now ≤ most → IsOk result) }
        ensures done { IsOk result ↔ IsWritten at (length bytes.now) self.old }
        ensures calls { tally_of self.new ≡ called Write (is_err result) (tally_of self.old) }
    {
        let due = self.calls.count(CallKind::Write);
        let (at, len) = (at as usize, bytes.len());
        if !recorder::has_room(&self.log, len) {
            return Err(self.calls.fail());
        }
        if due || len > self.content.room() - at {
            self.content.tear(at, len);
            recorder::note(&mut self.log, Turn::Tore { at, len }, &[]);
            return Err(self.calls.fail());
        }
        self.content.write(at, bytes);
        recorder::note(&mut self.log, Turn::Wrote { at, len }, bytes);
        Ok(())
    }

    fn sync(&mut self) -> Result<(), Failed>
        ensures did { Did (Syncs (is_ok result)) (told_of self.old) (told_of self.new) }
        ensures kept { Kept (told_of self.old) (told_of self.new) }
        ensures time { LeavesOnly (IsImage (told_of self.new).state) (told_of self.old) (told_of self.new) }
        ensures faults { Counts (told_of self.old).faults (told_of self.new).faults (is_err result) }
        ensures next { OnOk result (NextMoment (told_of self.old) (told_of self.new)) }
        ensures quiet { IsSome (told_of self.old).quiet → IsOk result }
        ensures done { IsOk result ↔ IsSynced self.old }
        ensures calls { tally_of self.new ≡ called Sync (is_err result) (tally_of self.old) }
    {
        let due = self.calls.count(CallKind::Sync);
        if !recorder::has_room(&self.log, 0) {
            return Err(self.calls.fail());
        }
        if due {
            recorder::note(&mut self.log, Turn::Unsynced, &[]);
            return Err(self.calls.fail());
        }
        self.content.sync();
        recorder::note(&mut self.log, Turn::Synced, &[]);
        Ok(())
    }

    fn flush(&mut self) -> NoFlush
        ensures meaning { told_of self.new ≡ told_of self.old }
        ensures calls { tally_of self.new ≡ tally_of self.old }
        ensures same { (memory_of self.new ≡ memory_of self.old) × (log_of self.new ≡ log_of self.old) }
    {
        NoFlush
    }

    /// A sync, which counts as one.
    fn flushed(&mut self, flush: NoFlush) -> Result<(), Failed>
        ensures did { Did (Syncs (is_ok result)) (told_of self.old) (told_of self.new) }
        ensures kept { Kept (told_of self.old) (told_of self.new) }
        ensures time { LeavesOnly (IsImage (told_of self.new).state) (told_of self.old) (told_of self.new) }
        ensures faults { Counts (told_of self.old).faults (told_of self.new).faults (is_err result) }
        ensures next { OnOk result (NextMoment (told_of self.old) (told_of self.new)) }
        ensures quiet { IsSome (told_of self.old).quiet → IsOk result }
        ensures done { IsOk result ↔ IsSynced self.old }
        ensures calls { tally_of self.new ≡ called Sync (is_err result) (tally_of self.old) }
    {
        drop(flush);
        self.sync()
    }

    /// None: what a disk in memory holds is read through it alone.
    fn peer(&self) -> Option<NoPeer> {
        None
    }

    fn faults(&self) -> u64 {
        self.calls.faults()
    }

    fn moment(&self) -> u64 {
        recorder::moment(&self.log)
    }
}
