//! An open journal: how far it reaches, and whether a record may be added.
ghost use Rattle.std.specs.Prelude.{◌≡◌, ◌⊎◌, ◌↔◌, ◌+◌, ◌-◌, ◌≤◌, ◌<◌, ◌^◌, ℕ, List, [], length, false, take, drop, is_err, is_some, IsOk, IsSome, IsTrue, IfErr, None, OnErr, OnOk, Some};
ghost use Rattle.std.specs.Option.{ForSome};
ghost use Rattle.ports.specs.Faults.{Counts};
ghost use Rattle.disk_model.specs.Images.{IsImage};
ghost use Rattle.changeset_model.specs.Version.{First};
ghost use Rattle.history_model.specs.Journal.{is_header};
ghost use Rattle.disk_model.specs.Meaning.{IsLong, Meaning};
ghost use Rattle.disk_model.specs.Calls.{Kept, LeavesOnly, Looked};
ghost use Rattle.repo_journal.specs.Answers.{is_full_answer, is_disk_fault, TellsSizes};
ghost use Rattle.repo_journal.specs.Cuts.{BreaksOff};
ghost use Rattle.repo_journal.specs.Left.{HasLaid, HasOpened, IsGoing, cut_by, cut_off, laid, left_at, length_of};
ghost use Rattle.repo_journal.specs.Steps.{Leaves, StopsAt, UnderWay};
ghost use Rattle.repo_journal.specs.declared.cut.Cut.TheVariants.{Write};
ghost use Rattle.repo_journal.specs.declared.left.At.TheVariants.{Laid, Opened};
ghost use Rattle.repo_journal.specs.Sealing.{IsFramed, payload_in, AllClosed, Appends, IsAfter};
ghost use Rattle.repo_journal.specs.Groups.{IsGroup, AppendsGroup, IsWith, grown, no_records};

use crate::cut::Cut;
use crate::fault::{AppendFault, DiskFault};
use crate::header::EMPTY_SIZE;
use crate::left::{At, Left};
use crate::opening::Opening;
use crate::pending::{KEPT_ROOM, Pending};
use crate::seal;
use blob_disk::Disk;
use std::alloc::{AllocError, Global};
use std::marker::Model;

/// The journal of an open file. After a fault of the disk in an append it is broken, and keeps which call failed: nothing may
/// be added, and what is there may still be read. Records may wait to be sealed together: they are read as
/// those of the file. A seal may be made in three steps, so that its two syncs are made elsewhere, while more records are held.
#[derive(Drop)]
pub struct Journal {
    capacity: u64,
    size: u64,
    left: Option<Left>,
    opening: Opening,
    pending: Pending,
}

impl Model for Journal {
    ghost use Rattle.repo_journal.specs.View.{JournalView, IsOpen};

    ghost Value = { JournalView };

    ghost view = { λ j. record { capacity = j.capacity; size = j.size; left = j.left; opening = j.opening; pending = j.pending } };

    ghost invariant = { λ j. IsOpen j.capacity j.size j.left j.pending.bytes };
}

impl Journal {
    /// A journal of a file with this capacity, whose closing gate stands directly before `size`. Nothing
    /// waits.
    pub fn new(alloc: Global, capacity: u64, size: u64, opening: Opening) -> Self
        requires header { IsTrue (is_header (record { capacity = capacity; version = First })) }
        requires some { EMPTY_SIZE ≤ size }
        requires fits { size ≤ capacity }
        ensures { result ≡ record { capacity = capacity; size = size; left = None; opening = opening; pending = no_records } }
    {
        Journal {
            capacity,
            size,
            left: None,
            opening,
            pending: Pending::new(alloc),
        }
    }

    /// The length of the file up to and with the closing gate, in bytes.
    pub fn size(&self) -> u64
        ensures size { result ≡ self.now.size }
        ensures small { result < 2 ^ 63 }
    {
        self.size
    }

    /// The most bytes that the file may have.
    pub fn capacity(&self) -> u64
        ensures { result ≡ self.now.capacity }
    {
        self.capacity
    }

    /// A call of the disk failed in an append.
    pub fn is_broken(&self) -> bool
        ensures { result ≡ is_some (cut_by self.now.left) }
    {
        self.broken().is_some()
    }

    /// Which call of the disk failed in an append.
    pub fn broken(&self) -> Option<Cut>
        ensures { result ≡ cut_by self.now.left }
    {
        match self.left {
            Some(left) => left.cut(),
            None => None,
        }
    }

    /// The group whose seal was begun and isn't done, or in whose append a call of the disk failed.
    pub fn left(&self) -> Option<Left>
        ensures { result ≡ self.now.left }
    {
        self.left
    }

    /// What was so at the opening.
    pub fn opening(&self) -> Opening
        ensures { result ≡ self.now.opening }
    {
        self.opening
    }

    /// Adds a record: two writes and two syncs. `frame` is a payload with its length of four bytes,
    /// high byte first, before it, and a closed gate behind it. It takes no memory. What waits then stands one record
    /// further on: append where nothing does.
    pub fn append<D: Disk>(&mut self, disk: &mut D, frame: &[u8]) -> Result<(), AppendFault>
        requires whole { is_some self.old.left ≡ false }
        requires framed { IsFramed frame.now }
        requires long { IsLong (D.meaning disk.old).reads self.old.size }

        ensures ok { OnOk result (self.new ≡ record self.old { size = self.old.size + 5 + length (payload_in frame.now) }) }

        // It is refused exactly where the record doesn't fit, and then nothing changes.
        ensures full { IsTrue (is_full_answer result) ↔ (self.old.capacity < self.old.size + 5 + length (payload_in frame.now)) }
        ensures sizes { IfErr result (TellsSizes self.old.size (length (payload_in frame.now))) }
        ensures refused { IsTrue (is_full_answer result) → (self.new ≡ self.old) × (D.meaning disk.new ≡ D.meaning disk.old) }

        // It fails only where a call of the disk did, and then the journal is broken by it.
        ensures faults { Counts (D.meaning disk.old).faults (D.meaning disk.new).faults (is_disk_fault result) }
        ensures broken { IsTrue (is_disk_fault result) → BreaksOff frame.now self.old self.new (D.meaning disk.old) (D.meaning disk.new) }
        ensures quiet { ForSome (D.meaning disk.old).quiet (λ most. self.old.size + 5 + length (payload_in frame.now) ≤ most → is_disk_fault result ≡ false) }

        ensures kept { Kept (D.meaning disk.old) (D.meaning disk.new) }
        ensures long { OnOk result (IsLong (D.meaning disk.new).reads self.new.size) }

        // A crash at any moment leaves the records before the call or after it.
        ensures crash { IsTrue (D.meaning disk.old).honest → AllClosed self.old.size (D.meaning disk.old).state
            → Appends self.old.size (payload_in frame.now) (D.meaning disk.old) (D.meaning disk.new) }

        // Once it is done, a crash leaves those after it, a closed gate, and nothing but what reads give.
        ensures sealed { OnOk result (IsTrue (D.meaning disk.old).honest → AllClosed self.old.size (D.meaning disk.old).state
            → (image : List ℕ) → IsImage (D.meaning disk.new).state image → IsAfter (D.meaning disk.old).state self.old.size (payload_in frame.now) image) }
        ensures closed { OnOk result (IsTrue (D.meaning disk.old).honest → AllClosed self.old.size (D.meaning disk.old).state
            → AllClosed self.new.size (D.meaning disk.new).state) }
        ensures settled { OnOk result (IsTrue (D.meaning disk.old).honest
            → (image : List ℕ) → IsImage (D.meaning disk.new).state image → image ≡ (D.meaning disk.new).state.reads) }
    {
        let added = frame.len() as u64;
        if added > self.capacity - self.size {
            return Err(AppendFault::Full {
                size: self.size,
                length: added - 5,
            });
        }
        match self.append_group(disk, frame) {
            Ok(()) => Ok(()),
            Err(_) => Err(AppendFault::DiskFault),
        }
    }

    /// Adds the records of a group, all or none: two writes and two syncs, however many they are.
    /// `group` has them as they stand behind the closing gate, which is the gate of the first. It takes
    /// no memory.
    pub fn append_group<D: Disk>(&mut self, disk: &mut D, group: &[u8]) -> Result<(), DiskFault>
        requires whole { is_some self.old.left ≡ false }
        requires group { IsGroup group.now }
        requires fits { self.old.size + length group.now ≤ self.old.capacity }
        requires long { IsLong (D.meaning disk.old).reads self.old.size }

        ensures ok { OnOk result (self.new ≡ record self.old { size = self.old.size + length group.now }) }

        // It fails only where a call of the disk did, and then the journal is broken by it.
        ensures faults { Counts (D.meaning disk.old).faults (D.meaning disk.new).faults (is_err result) }
        ensures broken { OnErr result (BreaksOff group.now self.old self.new (D.meaning disk.old) (D.meaning disk.new)) }
        ensures quiet { ForSome (D.meaning disk.old).quiet (λ most. self.old.size + length group.now ≤ most → IsOk result) }

        ensures kept { Kept (D.meaning disk.old) (D.meaning disk.new) }
        ensures long { OnOk result (IsLong (D.meaning disk.new).reads self.new.size) }

        // A crash at any moment leaves the records before the call, or these and all of the group.
        ensures crash { IsTrue (D.meaning disk.old).honest → AllClosed self.old.size (D.meaning disk.old).state
            → AppendsGroup self.old.size group.now (D.meaning disk.old) (D.meaning disk.new) }

        // Once it is done, a crash leaves the group too, a closed gate, and nothing but what reads give.
        ensures sealed { OnOk result (IsTrue (D.meaning disk.old).honest → AllClosed self.old.size (D.meaning disk.old).state
            → (image : List ℕ) → IsImage (D.meaning disk.new).state image → IsWith (D.meaning disk.old).state self.old.size group.now image) }
        ensures closed { OnOk result (IsTrue (D.meaning disk.old).honest → AllClosed self.old.size (D.meaning disk.old).state
            → AllClosed self.new.size (D.meaning disk.new).state) }
        ensures settled { OnOk result (IsTrue (D.meaning disk.old).honest
            → (image : List ℕ) → IsImage (D.meaning disk.new).state image → image ≡ (D.meaning disk.new).state.reads) }
    {
        match seal::append(disk, self.size, group) {
            Ok(()) => {
                self.size += group.len() as u64;
                Ok(())
            }
            Err(cut) => Err(self.fault(group.len() as u64, cut)),
        }
    }

    /// Makes room for so many bytes of records that wait.
    pub fn reserve(&mut self, count: usize) -> Result<(), AllocError>
        ensures same { self.new ≡ record self.old { pending = self.new.pending } }
        ensures bytes { self.new.pending.bytes ≡ self.old.pending.bytes }
        ensures room { OnOk result (count ≤ self.new.pending.room) }
        ensures keeps { self.old.pending.room ≤ self.new.pending.room }
    {
        self.pending.reserve(count)
    }

    /// A record more that waits, as `append` takes it. It takes no memory, and calls no disk.
    pub fn hold(&mut self, frame: &[u8])
        requires { length frame.now ≤ self.old.pending.room }
        ensures same { self.new ≡ record self.old { pending = self.new.pending } }
        ensures bytes { self.new.pending.bytes ≡ grown self.old.pending.bytes frame.now }
        ensures spent { (self.new.pending.memory ≤ KEPT_ROOM) ⊎ (self.new.pending.room ≡ 0) }
    {
        self.pending.hold(frame);
    }

    /// Makes room for so many bytes behind the records that wait. Where nothing waits, none is wanted.
    pub fn reserve_behind(&mut self, count: usize) -> Result<(), AllocError>
        ensures same { self.new ≡ record self.old { pending = self.new.pending } }
        ensures bytes { self.new.pending.bytes ≡ self.old.pending.bytes }
        ensures room { OnOk result ((self.new.pending.bytes ≡ []) ⊎ (count ≤ self.new.pending.room)) }
    {
        self.pending.reserve_behind(count)
    }

    /// A record more that waits, as `hold` has it. Where nothing waits, a long frame isn't copied. It takes no memory, and
    /// calls no disk.
    pub fn take(&mut self, frame: Vec<u8>)
        requires { (self.old.pending.bytes ≡ []) ⊎ (length frame.items ≤ self.old.pending.room) }
        ensures same { self.new ≡ record self.old { pending = self.new.pending } }
        ensures bytes { self.new.pending.bytes ≡ grown self.old.pending.bytes frame.items }
        ensures spent { (self.new.pending.memory ≤ KEPT_ROOM) ⊎ (self.new.pending.room ≡ 0) }
    {
        self.pending.take(frame);
    }

    /// Appends the records that wait, as `append_group` does. After a fault of the disk they wait on, so
    /// they are read as before.
    pub fn seal<D: Disk>(&mut self, disk: &mut D) -> Result<(), DiskFault>
        requires whole { is_some self.old.left ≡ false }
        requires group { IsGroup self.old.pending.bytes }
        requires fits { self.old.size + length self.old.pending.bytes ≤ self.old.capacity }
        requires long { IsLong (D.meaning disk.old).reads self.old.size }

        ensures ok { OnOk result (self.new ≡ record self.old { size = self.old.size + length self.old.pending.bytes; pending = self.new.pending }) }
        ensures emptied { OnOk result (self.new.pending.bytes ≡ []) }
        ensures keeps { self.old.pending.room ≤ self.new.pending.room }
        ensures memory { OnOk result ((self.new.pending.memory ≤ KEPT_ROOM) ⊎ (1 ≤ self.old.pending.room)) }
        ensures shrinks { self.new.pending.memory ≤ self.old.pending.memory }

        // It fails only where a call of the disk did, and then the journal is broken by it.
        ensures faults { Counts (D.meaning disk.old).faults (D.meaning disk.new).faults (is_err result) }
        ensures broken { OnErr result (BreaksOff self.old.pending.bytes self.old self.new (D.meaning disk.old) (D.meaning disk.new)) }
        ensures quiet { ForSome (D.meaning disk.old).quiet (λ most. self.old.size + length self.old.pending.bytes ≤ most → IsOk result) }

        ensures kept { Kept (D.meaning disk.old) (D.meaning disk.new) }
        ensures long { OnOk result (IsLong (D.meaning disk.new).reads self.new.size) }

        // A crash at any moment leaves the records before the call, or these and all that waited.
        ensures crash { IsTrue (D.meaning disk.old).honest → AllClosed self.old.size (D.meaning disk.old).state
            → AppendsGroup self.old.size self.old.pending.bytes (D.meaning disk.old) (D.meaning disk.new) }

        // Once it is done, a crash leaves what waited too, a closed gate, and nothing but what reads give.
        ensures sealed { OnOk result (IsTrue (D.meaning disk.old).honest → AllClosed self.old.size (D.meaning disk.old).state
            → (image : List ℕ) → IsImage (D.meaning disk.new).state image → IsWith (D.meaning disk.old).state self.old.size self.old.pending.bytes image) }
        ensures closed { OnOk result (IsTrue (D.meaning disk.old).honest → AllClosed self.old.size (D.meaning disk.old).state
            → AllClosed self.new.size (D.meaning disk.new).state) }
        ensures settled { OnOk result (IsTrue (D.meaning disk.old).honest
            → (image : List ℕ) → IsImage (D.meaning disk.new).state image → image ≡ (D.meaning disk.new).state.reads) }
    {
        let length = self.pending.bytes().len() as u64;
        match seal::append(disk, self.size, self.pending.bytes()) {
            Ok(()) => {
                self.size += length;
                self.pending.clear();
                Ok(())
            }
            Err(cut) => Err(self.fault(length, cut)),
        }
    }

    /// Begins to seal the records that wait, which are a group from then on: writes them behind the closing gate, and hands
    /// out the sync of them, to be made elsewhere and brought to `open`. They wait on, and are read as before. What is held
    /// meanwhile waits behind them. It takes no memory.
    pub fn begin<D: Disk>(&mut self, disk: &mut D) -> Result<D::Flush, DiskFault>
        requires whole { is_some self.old.left ≡ false }
        requires group { IsGroup self.old.pending.bytes }
        requires fits { self.old.size + length self.old.pending.bytes ≤ self.old.capacity }
        requires long { IsLong (D.meaning disk.old).reads self.old.size }

        ensures ok { OnOk result (self.new ≡ record self.old { left = Some (laid (length self.old.pending.bytes)) }) }

        // It fails only where the write did, and then the journal is broken by it.
        ensures faults { Counts (D.meaning disk.old).faults (D.meaning disk.new).faults (is_err result) }
        ensures broken { OnErr result (BreaksOff self.old.pending.bytes self.old self.new (D.meaning disk.old) (D.meaning disk.new)) }
        ensures first { OnErr result (cut_by self.new.left ≡ Some Write) }
        ensures quiet { ForSome (D.meaning disk.old).quiet (λ most. self.old.size + length self.old.pending.bytes ≤ most → IsOk result) }

        ensures kept { Kept (D.meaning disk.old) (D.meaning disk.new) }

        // A crash leaves the records before the call, and none of the group.
        ensures time { LeavesOnly (IsImage (D.meaning disk.new).state) (D.meaning disk.old) (D.meaning disk.new) }
        ensures crash { IsTrue (D.meaning disk.old).honest → AllClosed self.old.size (D.meaning disk.old).state
            → AppendsGroup self.old.size self.old.pending.bytes (D.meaning disk.old) (D.meaning disk.new) }
        ensures under { OnOk result ((IsTrue (D.meaning disk.old).honest → AllClosed self.old.size (D.meaning disk.old).state)
            → UnderWay Laid self.old.size self.old.pending.bytes (D.meaning disk.old) (D.meaning disk.new)) }
    {
        let length = self.pending.bytes().len() as u64;
        match seal::lay(disk, self.size, self.pending.bytes()) {
            Ok(written) => {
                self.left = Some(Left {
                    length,
                    at: At::Laid,
                });
                Ok(written)
            }
            Err(cut) => Err(self.fault(length, cut)),
        }
    }

    /// Opens the gate of a group that is laid, once the sync that `begin` handed out is brought back, and hands out the sync of
    /// the gate, to be made elsewhere and brought to `close`. Where that sync isn't of this disk, or wasn't run, it is made here. It
    /// takes no memory.
    pub fn open<D: Disk>(&mut self, disk: &mut D, flush: D::Flush) -> Result<D::Flush, DiskFault>
        requires laid { HasLaid self.old.left }
        requires long { IsLong (D.meaning disk.old).reads self.old.size }

        ensures ok { OnOk result (self.new ≡ record self.old { left = left_at Opened self.old.left }) }

        // It fails only where the sync did, or the write of the gate, and then the journal is broken by it. `bytes` are the
        // group's as it was begun, and `m` is what was told of the disk then.
        ensures faults { Counts (D.meaning disk.old).faults (D.meaning disk.new).faults (is_err result) }
        ensures stops { OnErr result (StopsAt Laid self.old self.new (D.meaning disk.old) (D.meaning disk.new)) }
        ensures quiet { ForSome (D.meaning disk.old).quiet (λ most. self.old.size ≤ most → IsOk result) }

        ensures kept { Kept (D.meaning disk.old) (D.meaning disk.new) }

        // A crash at any moment leaves the records before the group, or these and all of it.
        ensures crash { (m : Meaning) (bytes : List ℕ) → UnderWay Laid self.old.size bytes m (D.meaning disk.old) → IsTrue m.honest
            → Leaves self.old.size bytes m (D.meaning disk.old) (D.meaning disk.new) }
        ensures under { OnOk result ((m : Meaning) (bytes : List ℕ) → UnderWay Laid self.old.size bytes m (D.meaning disk.old)
            → UnderWay Opened self.old.size bytes m (D.meaning disk.new)) }
    {
        let length = self.under_way();
        match seal::open(disk, self.size, flush) {
            Ok(opened) => {
                self.left = Some(Left {
                    length,
                    at: At::Opened,
                });
                Ok(opened)
            }
            Err(cut) => Err(self.fault(length, cut)),
        }
    }

    /// Ends the seal of a group whose gate is opened, once the sync that `open` handed out is brought back: the group is sealed,
    /// and what was held behind it waits. Where that sync isn't of this disk, or wasn't run, it is made here. It takes no memory.
    pub fn close<D: Disk>(&mut self, disk: &mut D, flush: D::Flush) -> Result<(), DiskFault>
        requires opened { HasOpened self.old.left }

        ensures ok { OnOk result (self.new ≡ record self.old { left = None; size = self.old.size + length_of self.old.left; pending = self.new.pending }) }
        ensures behind { OnOk result (self.new.pending.bytes ≡ drop (length_of self.old.left) self.old.pending.bytes) }
        ensures keeps { self.old.pending.room ≤ self.new.pending.room }
        ensures memory { OnOk result (self.new.pending.bytes ≡ [] → (self.new.pending.memory ≤ KEPT_ROOM) ⊎ (1 ≤ self.old.pending.room)) }
        ensures shrinks { self.new.pending.memory ≤ self.old.pending.memory }

        // It fails only where the sync did, and then the journal is broken by it. `bytes` are the group's as it was begun, and
        // `m` is what was told of the disk then.
        ensures faults { Counts (D.meaning disk.old).faults (D.meaning disk.new).faults (is_err result) }
        ensures stops { OnErr result (StopsAt Opened self.old self.new (D.meaning disk.old) (D.meaning disk.new)) }
        ensures quiet { IsSome (D.meaning disk.old).quiet → IsOk result }

        ensures kept { Kept (D.meaning disk.old) (D.meaning disk.new) }

        // A crash at any moment leaves the records before the group, or these and all of it.
        ensures crash { (m : Meaning) (bytes : List ℕ) → UnderWay Opened self.old.size bytes m (D.meaning disk.old) → IsTrue m.honest
            → Leaves self.old.size bytes m (D.meaning disk.old) (D.meaning disk.new) }

        // Once it is done, a crash leaves the group too, a closed gate, and nothing but what reads give.
        ensures sealed { OnOk result ((m : Meaning) (bytes : List ℕ) → UnderWay Opened self.old.size bytes m (D.meaning disk.old) → IsTrue m.honest
            → (image : List ℕ) → IsImage (D.meaning disk.new).state image → IsWith m.state self.old.size bytes image) }
        ensures closed { OnOk result ((m : Meaning) (bytes : List ℕ) → UnderWay Opened self.old.size bytes m (D.meaning disk.old) → IsTrue m.honest
            → IsGroup bytes → AllClosed (self.old.size + length bytes) (D.meaning disk.new).state) }
        ensures settled { OnOk result (IsTrue (D.meaning disk.old).honest
            → (image : List ℕ) → IsImage (D.meaning disk.new).state image → image ≡ (D.meaning disk.new).state.reads) }
    {
        let length = self.under_way();
        match seal::end(disk, flush) {
            Ok(()) => {
                self.size += length;
                self.left = None;
                self.pending.pass(length as usize);
                Ok(())
            }
            Err(cut) => Err(self.fault(length, cut)),
        }
    }

    // How many bytes the group has that is being sealed.
    fn under_way(&self) -> u64
        requires { IsGoing self.now.left }
        ensures length { result ≡ length_of self.now.left }
        ensures waits { result ≤ length self.now.pending.bytes }
        ensures fits { self.now.size + result ≤ self.now.capacity }
    {
        match self.left {
            Some(left) => left.length,
            None => unreachable!(),
        }
    }

    // Nothing may be added any more.
    fn fault(&mut self, length: u64, cut: Cut) -> DiskFault
        ensures { self.new ≡ record self.old { left = Some (cut_off length cut) } }
    {
        let at = At::Cut(cut);
        self.left = Some(Left { length, at });
        DiskFault
    }

    /// Fills `buf` with the bytes from `at` on: from `size` on those that wait, where they will stand.
    pub fn read<D: Disk>(&self, disk: &mut D, at: u64, buf: &mut [u8]) -> Result<(), DiskFault>
        requires inside { at + length buf.old ≤ self.now.size + length self.now.pending.bytes }
        requires apart { at < self.now.size → at + length buf.old ≤ self.now.size }
        requires long { IsLong (D.meaning disk.old).reads self.now.size }
        ensures bytes { OnOk result (at + length buf.old ≤ self.now.size
            → ForSome (D.meaning disk.old).reads (λ file. buf.new ≡ take (length buf.old) (drop at file))) }

        // What waits is read without the disk.
        ensures waiting { self.now.size ≤ at → buf.new ≡ take (length buf.old) (drop (at - self.now.size) self.now.pending.bytes) }
        ensures there { self.now.size ≤ at → IsOk result }
        ensures still { self.now.size ≤ at → D.meaning disk.new ≡ D.meaning disk.old }

        ensures looked { Looked (D.meaning disk.old) (D.meaning disk.new) }
        ensures kept { Kept (D.meaning disk.old) (D.meaning disk.new) }
        ensures time { LeavesOnly (IsImage (D.meaning disk.new).state) (D.meaning disk.old) (D.meaning disk.new) }
        ensures faults { Counts (D.meaning disk.old).faults (D.meaning disk.new).faults (is_err result) }
        ensures quiet { IsSome (D.meaning disk.old).quiet → IsOk result }
    {
        if at < self.size {
            return match disk.read_at(at, buf) {
                Ok(()) => Ok(()),
                Err(_) => Err(DiskFault),
            };
        }
        let from = (at - self.size) as usize;
        buf.copy_from_slice(&self.pending.bytes()[from..from + buf.len()]);
        Ok(())
    }
}
