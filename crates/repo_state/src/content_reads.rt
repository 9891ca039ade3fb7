//! Reads of contents.
ghost use Rattle.std.specs.Prelude.{◌≡◌, IsTrue, false, not, IfOk, IfErr, Some};
ghost use Rattle.ports.specs.Faults.{Counts};
ghost use Rattle.sha2.specs.Sha256.{sha256};
ghost use Rattle.disk_model.specs.Images.{IsImage};
ghost use Rattle.disk_model.specs.Calls.{Kept, LeavesOnly, Looked};
ghost use Rattle.history_model.specs.History.{content_len, is_whole, whole_parts};
ghost use Rattle.reply_model.specs.After.{Looks, Replies};
ghost use Rattle.reply_model.specs.Reply.{ContentOf};
ghost use Rattle.repo_calls.specs.Asking.{bytes_answer, fault_answer, is_bad_bytes, is_early, is_read_fault};
ghost use Rattle.repo_machine.specs.Indexes.{StandsAt};
ghost use Rattle.repo_state.specs.Asking.{IsReadFor, IsUnsealed, TellsDigest};
ghost use Rattle.repo_state.specs.Cores.{LooksSo};
ghost use Rattle.repo_state.specs.Joining.{AreStanding, ids_of};
ghost use Rattle.repo_state.specs.State.{IsSound, LeavesNow, reach};

use crate::fill::{fill, fill_parts, total};
use crate::read_content::{ReadContent, check_digest};
use crate::state::RepoState;
use blob_disk::Disk;
use content_table::{Part, Place};
use object_id::Id;
use repo_calls::AskFault;
use std::alloc::Global;

impl<D: Disk> RepoState<D> {
    /// The bytes of a content, read from the file, or from memory where its record waits. Those of one that was joined are
    /// those of its parts. Where the disk fails to read, that is entered as a fault that the seat `who` met.
    pub fn content(&mut self, alloc: Global, who: u64, id: Id) -> Result<Vec<u8>, AskFault>
        ensures reply { Replies self.old.header self.old.history who (Looks (ContentOf id)) (bytes_answer result) self.new.history }
        ensures header { self.new.header ≡ self.old.header }
        ensures opening { self.new.opening ≡ self.old.opening }
        ensures sealed { self.new.sealed ≡ self.old.sealed }
        ensures table { self.new.table ≡ self.old.table }
        ensures sound { IsSound self.new.opening self.new.history self.new.sealed (reach self.new) self.new.disk }
        ensures left { self.new.left ≡ self.old.left }
        ensures leaves_now { LeavesNow self.new }
        ensures looked { Looked self.old.disk self.new.disk }
        ensures leaves { IsTrue self.old.disk.honest → LeavesOnly (IsImage self.new.disk.state) self.old.disk self.new.disk }
        ensures kept { Kept self.old.disk self.new.disk }

        // The disk fails it only where a call of it failed.
        ensures faults { Counts self.old.disk.faults self.new.disk.faults (is_read_fault result) }

        // Bytes of another id are what the disk gave, which an honest disk never does.
        ensures found { TellsDigest self.old.disk self.old.history self.old.sealed result }
        ensures honest { IsTrue self.old.disk.honest → is_bad_bytes result ≡ false }

        // Where there is no such content or no memory, the disk isn't asked.
        ensures early { IsTrue (is_early result) → self.new.disk ≡ self.old.disk }

        // Nor is it for a content that waits and isn't joined, which always has its digest.
        ensures waiting { IsUnsealed self.old.history self.old.sealed id → self.new.disk ≡ self.old.disk }
        ensures waits { IsUnsealed self.old.history self.old.sealed id → (is_read_fault result ≡ false) × (is_bad_bytes result ≡ false) }

        // It is a step of the repository of many seats.
        ensures core { LooksSo self.old.header self.old.history self.old.sealed who (not (is_read_fault result)) self.new.history }
    {
        match self.content_unchecked(alloc, who, id) {
            Ok(read) => check_digest(read, id),
            Err(fault) => Err(fault),
        }
    }

    /// The bytes that stand for a content in the file, or in memory where its record waits, and for one that was joined those
    /// of its parts, one behind another. Whether they have its id is left to `check_digest`, which can be called where nobody
    /// waits for the repository. All memory is taken before the first read. Where the disk fails to read, that is entered as a
    /// fault that the seat `who` met.
    pub fn content_unchecked(
        &mut self,
        alloc: Global,
        who: u64,
        id: Id,
    ) -> Result<ReadContent, AskFault>
        ensures ok { IfOk result (λ read. IsReadFor self.old.disk self.old.history self.old.sealed id read.bytes.items read.parts.items) }
        ensures same { IfOk result (λ read. self.new.history ≡ self.old.history) }
        ensures err { IfErr result (λ fault. Replies self.old.header self.old.history who (Looks (ContentOf id)) (fault_answer fault) self.new.history) }
        ensures unchecked { is_bad_bytes result ≡ false }
        ensures header { self.new.header ≡ self.old.header }
        ensures opening { self.new.opening ≡ self.old.opening }
        ensures sealed { self.new.sealed ≡ self.old.sealed }
        ensures table { self.new.table ≡ self.old.table }
        ensures sound { IsSound self.new.opening self.new.history self.new.sealed (reach self.new) self.new.disk }
        ensures left { self.new.left ≡ self.old.left }
        ensures leaves_now { LeavesNow self.new }
        ensures looked { Looked self.old.disk self.new.disk }
        ensures leaves { IsTrue self.old.disk.honest → LeavesOnly (IsImage self.new.disk.state) self.old.disk self.new.disk }
        ensures kept { Kept self.old.disk self.new.disk }

        // The disk fails it only where a call of it failed.
        ensures faults { Counts self.old.disk.faults self.new.disk.faults (is_read_fault result) }

        // An honest disk gives the bytes of the content.
        ensures honest { IsTrue self.old.disk.honest → IfOk result (λ read. sha256 read.bytes.items ≡ id) }

        // Where there is no such content or no memory, the disk isn't asked.
        ensures early { IsTrue (is_early result) → self.new.disk ≡ self.old.disk }

        // Nor is it for a content that waits and isn't joined.
        ensures waiting { IsUnsealed self.old.history self.old.sealed id → self.new.disk ≡ self.old.disk }
        ensures waits { IsUnsealed self.old.history self.old.sealed id → is_read_fault result ≡ false }

        // It is a step of the repository of many seats.
        ensures core { LooksSo self.old.header self.old.history self.old.sealed who (not (is_read_fault result)) self.new.history }
    {
        if let Some(place) = self.machine.content_place(&id) {
            return self.read_single(alloc, who, id, place);
        }
        match self.machine.joined_pieces(alloc, &id) {
            Ok(Some(parts)) => self.read_joined(alloc, who, id, parts),
            Ok(None) => Err(AskFault::NoContent { id }),
            Err(_) => Err(AskFault::Memory),
        }
    }

    // The bytes at the place of a content.
    fn read_single(
        &mut self,
        alloc: Global,
        who: u64,
        id: Id,
        place: Place,
    ) -> Result<ReadContent, AskFault>
        requires stored { content_len self.old.history id ≡ Some place.length }
        requires place { StandsAt self.old.history id place }
        ensures ok { IfOk result (λ read. IsReadFor self.old.disk self.old.history self.old.sealed id read.bytes.items read.parts.items) }
        ensures same { IfOk result (λ read. self.new.history ≡ self.old.history) }
        ensures err { IfErr result (λ fault. Replies self.old.header self.old.history who (Looks (ContentOf id)) (fault_answer fault) self.new.history) }
        ensures unchecked { is_bad_bytes result ≡ false }
        ensures header { self.new.header ≡ self.old.header }
        ensures opening { self.new.opening ≡ self.old.opening }
        ensures sealed { self.new.sealed ≡ self.old.sealed }
        ensures table { self.new.table ≡ self.old.table }
        ensures sound { IsSound self.new.opening self.new.history self.new.sealed (reach self.new) self.new.disk }
        ensures left { self.new.left ≡ self.old.left }
        ensures leaves_now { LeavesNow self.new }
        ensures looked { Looked self.old.disk self.new.disk }
        ensures leaves { IsTrue self.old.disk.honest → LeavesOnly (IsImage self.new.disk.state) self.old.disk self.new.disk }
        ensures kept { Kept self.old.disk self.new.disk }
        ensures faults { Counts self.old.disk.faults self.new.disk.faults (is_read_fault result) }
        ensures honest { IsTrue self.old.disk.honest → IfOk result (λ read. sha256 read.bytes.items ≡ id) }
        ensures early { IsTrue (is_early result) → self.new.disk ≡ self.old.disk }
        ensures waiting { IsUnsealed self.old.history self.old.sealed id → self.new.disk ≡ self.old.disk }
        ensures waits { IsUnsealed self.old.history self.old.sealed id → is_read_fault result ≡ false }
        ensures core { LooksSo self.old.header self.old.history self.old.sealed who (not (is_read_fault result)) self.new.history }
    {
        if self.machine.room(2).is_err() {
            return Err(AskFault::Memory);
        }
        let Ok(buffer) = vec![in alloc; 0; place.length as usize] else {
            return Err(AskFault::Memory);
        };
        match fill(&self.journal, &mut self.disk, place.at, buffer) {
            Ok(bytes) => Ok(ReadContent {
                bytes,
                parts: Vec::new(alloc),
            }),
            Err(_) => {
                self.machine.fault(who, false);
                Err(AskFault::ReadFault)
            }
        }
    }

    // The bytes at the places of a whole's parts.
    fn read_joined(
        &mut self,
        alloc: Global,
        who: u64,
        id: Id,
        parts: Vec<Part>,
    ) -> Result<ReadContent, AskFault>
        requires whole { IsTrue (is_whole self.old.history id) }
        requires parts { ids_of parts.items ≡ whole_parts self.old.history id }
        requires places { AreStanding self.old.history parts.items }
        ensures ok { IfOk result (λ read. IsReadFor self.old.disk self.old.history self.old.sealed id read.bytes.items read.parts.items) }
        ensures same { IfOk result (λ read. self.new.history ≡ self.old.history) }
        ensures err { IfErr result (λ fault. Replies self.old.header self.old.history who (Looks (ContentOf id)) (fault_answer fault) self.new.history) }
        ensures unchecked { is_bad_bytes result ≡ false }
        ensures header { self.new.header ≡ self.old.header }
        ensures opening { self.new.opening ≡ self.old.opening }
        ensures sealed { self.new.sealed ≡ self.old.sealed }
        ensures table { self.new.table ≡ self.old.table }
        ensures sound { IsSound self.new.opening self.new.history self.new.sealed (reach self.new) self.new.disk }
        ensures left { self.new.left ≡ self.old.left }
        ensures leaves_now { LeavesNow self.new }
        ensures looked { Looked self.old.disk self.new.disk }
        ensures leaves { IsTrue self.old.disk.honest → LeavesOnly (IsImage self.new.disk.state) self.old.disk self.new.disk }
        ensures kept { Kept self.old.disk self.new.disk }
        ensures faults { Counts self.old.disk.faults self.new.disk.faults (is_read_fault result) }
        ensures honest { IsTrue self.old.disk.honest → IfOk result (λ read. sha256 read.bytes.items ≡ id) }
        ensures early { IsTrue (is_early result) → self.new.disk ≡ self.old.disk }
        ensures core { LooksSo self.old.header self.old.history self.old.sealed who (not (is_read_fault result)) self.new.history }
    {
        if self.machine.room(2).is_err() {
            return Err(AskFault::Memory);
        }
        let Some(length) = total(parts.as_slice()) else {
            return Err(AskFault::Memory);
        };
        let Ok(mut bytes) = vec![in alloc; 0; length as usize] else {
            return Err(AskFault::Memory);
        };
        match fill_parts(&self.journal, &mut self.disk, parts.as_slice(), &mut bytes) {
            Ok(()) => Ok(ReadContent { bytes, parts }),
            Err(_) => {
                self.machine.fault(who, false);
                Err(AskFault::ReadFault)
            }
        }
    }
}
