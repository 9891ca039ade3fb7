//! Contents that are joined. They are read and hashed in the turn in which the whole is judged.
ghost use Rattle.std.specs.Prelude.{◌≡◌, map, false, true, IfOk, IfErr, OnOk, IsSome, IsTrue};
ghost use Rattle.std.specs.List.{All};
ghost use Rattle.ports.specs.Faults.{Counts};
ghost use Rattle.byte_fields.specs.Bytes.{are_bytes};
ghost use Rattle.disk_model.specs.Images.{IsImage};
ghost use Rattle.disk_model.specs.Meaning.{IsLong};
ghost use Rattle.disk_model.specs.Calls.{Kept, LeavesOnly, Looked};
ghost use Rattle.history_model.specs.History.{is_down};
ghost use Rattle.reply_model.specs.After.{Joins, Replies};
ghost use Rattle.content_pieces.specs.Joining.{IsWithin};
ghost use Rattle.repo_calls.specs.Asking.{is_disk_fault, is_misread, is_unread, stored_answer};
ghost use Rattle.repo_state.specs.Cores.{StoresCall};
ghost use Rattle.repo_state.specs.Filling.{piece_of};
ghost use Rattle.repo_state.specs.Joining.{AreStanding, IsJoinOf, IsReadWhole, JoinFails, TellsUnread, ids_of as ids_in, is_disks, piece_fault};
ghost use Rattle.repo_state.specs.State.{IsSound, LeavesNow, reach};

use crate::fill::total;
use crate::state::RepoState;
use blob_disk::Disk;
use content_pieces::{Piece, PieceFault, joined_id};
use content_table::Part;
use object_id::Id;
use repo_calls::{ChangeFault, Granted, Refusal};
use repo_journal::Journal;
use repo_machine::Joined;
use std::alloc::{AllocError, Global};

impl<D: Disk> RepoState<D> {
    // Joins the contents with the ids in this body, for the seat `who`.
    pub(crate) fn store_joined(
        &mut self,
        alloc: Global,
        who: u64,
        body: &[u8],
    ) -> Result<Granted, ChangeFault>
        requires bytes { are_bytes body.now ≡ true }
        ensures reply { Replies self.old.header self.old.history who (Joins body.now) (stored_answer result) self.new.history }
        ensures header { self.new.header ≡ self.old.header }
        ensures opening { self.new.opening ≡ self.old.opening }
        ensures table { self.new.table ≡ self.old.table }
        ensures sealed { self.new.sealed ≡ self.old.sealed }
        ensures sound { IsSound self.new.opening self.new.history self.new.sealed (reach self.new) self.new.disk }
        ensures left { self.new.left ≡ self.old.left }
        ensures leaves_now { LeavesNow self.new }
        ensures looked { Looked self.old.disk self.new.disk }
        ensures leaves { IsTrue self.old.disk.honest → LeavesOnly (IsImage self.new.disk.state) self.old.disk self.new.disk }
        ensures kept { Kept self.old.disk self.new.disk }
        ensures faults { Counts self.old.disk.faults self.new.disk.faults (is_unread result) }
        ensures undone { is_disk_fault result ≡ false }
        ensures down { is_down self.old.history ≡ true → self.new.disk ≡ self.old.disk }
        ensures honest { IsTrue self.old.disk.honest → is_misread result ≡ false }
        ensures core { StoresCall self.old.header self.old.history self.old.sealed who (Joins body.now) (stored_answer result) self.new.history }
    {
        let parts = match self.machine.judge_pieces(alloc, body) {
            Ok(parts) => parts,
            Err(refusal) => return Err(ChangeFault::Refused(refusal)),
        };
        let whole = match self.join(alloc, who, parts.as_slice()) {
            Ok(whole) => whole,
            Err(fault) => return Err(fault),
        };
        let judged = match self.machine.judge_whole(alloc, who, whole) {
            Ok(judged) => judged,
            Err(refusal) => return Err(ChangeFault::Refused(refusal)),
        };
        match self.enter(judged) {
            Ok(granted) => Ok(granted),
            Err(refusal) => Err(ChangeFault::Refused(refusal)),
        }
    }

    // Reads contents, and tells what they are joined. The first is told whose bytes have another id.
    fn join(&mut self, alloc: Global, who: u64, parts: &[Part]) -> Result<Joined, ChangeFault>
        requires parts { AreStanding self.old.history parts.now }
        ensures ok { IfOk result (IsJoinOf self.old parts.now) }
        ensures same { OnOk result (self.new.history ≡ self.old.history) }
        ensures waits { self.new.pending ≡ self.old.pending }
        ensures err { IfErr result (λ fault. JoinFails self.old.history who (ids_in parts.now) fault self.new.history) }
        ensures header { self.new.header ≡ self.old.header }
        ensures opening { self.new.opening ≡ self.old.opening }
        ensures table { self.new.table ≡ self.old.table }
        ensures sealed { self.new.sealed ≡ self.old.sealed }
        ensures sound { IsSound self.new.opening self.new.history self.new.sealed (reach self.new) self.new.disk }
        ensures left { self.new.left ≡ self.old.left }
        ensures leaves_now { LeavesNow self.new }
        ensures looked { Looked self.old.disk self.new.disk }
        ensures leaves { IsTrue self.old.disk.honest → LeavesOnly (IsImage self.new.disk.state) self.old.disk self.new.disk }
        ensures kept { Kept self.old.disk self.new.disk }
        ensures faults { Counts self.old.disk.faults self.new.disk.faults (is_unread result) }
        ensures honest { IsTrue self.old.disk.honest → is_misread result ≡ false }
    {
        if self.machine.room(2).is_err() {
            return Err(ChangeFault::Refused(Refusal::Memory));
        }
        match read_whole(alloc, &self.journal, &mut self.disk, parts) {
            Ok(whole) => Ok(whole),
            Err(fault) => {
                if !is_of_disk(&fault) {
                    return Err(fault);
                }
                self.machine.fault(who, false);
                Err(fault)
            }
        }
    }
}

// What is read of these parts, joined. All memory is taken before the first read.
fn read_whole<D: Disk>(
    alloc: Global,
    journal: &Journal,
    disk: &mut D,
    parts: &[Part],
) -> Result<Joined, ChangeFault>
    requires within { All (IsWithin journal.now) (map piece_of parts.now) }
    requires long { IsLong (D.meaning disk.old).reads journal.now.size }
    ensures ok { IfOk result (IsReadWhole journal.now (D.meaning disk.old) parts.now) }
    ensures err { IfErr result (TellsUnread journal.now (D.meaning disk.old) parts.now) }
    ensures looked { Looked (D.meaning disk.old) (D.meaning disk.new) }
    ensures kept { Kept (D.meaning disk.old) (D.meaning disk.new) }
    ensures leaves { IsTrue (D.meaning disk.old).honest → LeavesOnly (IsImage (D.meaning disk.new).state) (D.meaning disk.old) (D.meaning disk.new) }
    ensures faults { Counts (D.meaning disk.old).faults (D.meaning disk.new).faults (is_unread result) }
    ensures quiet { IsSome (D.meaning disk.old).quiet → is_unread result ≡ false }
{
    let Some(length) = total(parts) else {
        return Err(ChangeFault::Refused(Refusal::Memory));
    };
    let Ok(ids) = ids_of(alloc, parts) else {
        return Err(ChangeFault::Refused(Refusal::Memory));
    };
    let Ok(pieces) = pieces_of(alloc, parts) else {
        return Err(ChangeFault::Refused(Refusal::Memory));
    };
    match joined_id(journal, disk, pieces.as_slice()) {
        Ok(id) => Ok(Joined {
            parts: ids,
            id,
            length,
        }),
        Err(fault) => Err(unread_fault(fault)),
    }
}

// The disk failed to read.
fn is_of_disk(fault: &ChangeFault) -> bool
    ensures { result ≡ is_disks fault.now }
{
    match fault {
        ChangeFault::ReadFault => true,
        ChangeFault::Refused(_) | ChangeFault::DiskFault | ChangeFault::BadBytes { .. } => false,
    }
}

// Why contents weren't read, as the answer to a change.
fn unread_fault(fault: PieceFault) -> ChangeFault
    ensures { result ≡ piece_fault fault }
{
    match fault {
        PieceFault::ReadFault => ChangeFault::ReadFault,
        PieceFault::BadBytes { wanted, found } => ChangeFault::BadBytes { wanted, found },
    }
}

// The ids of the parts.
fn ids_of(alloc: Global, parts: &[Part]) -> Result<Vec<Id>, AllocError>
    ensures { IfOk result (λ ids. ids.items ≡ ids_in parts.now) }
{
    let mut ids = Vec::with_capacity(alloc, parts.len())?;
    for part in parts {
        ids.push(part.id)?;
    }
    Ok(ids)
}

// The parts, as they are joined.
fn pieces_of(alloc: Global, parts: &[Part]) -> Result<Vec<Piece>, AllocError>
    ensures { IfOk result (λ pieces. pieces.items ≡ map piece_of parts.now) }
{
    let mut pieces = Vec::with_capacity(alloc, parts.len())?;
    for part in parts {
        pieces.push(Piece {
            id: part.id,
            at: part.place.at,
            length: part.place.length,
        })?;
    }
    Ok(pieces)
}
