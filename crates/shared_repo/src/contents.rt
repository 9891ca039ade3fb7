//! Reads of contents. A turn tells where the bytes stand, and outside of it a second handle of the disk reads them, so that
//! nobody waits for a device that takes long. Nothing is known of what that handle gives. Bytes that have the content's id are
//! the content, whoever gave them; for any others the disk is asked in a turn, which alone tells of its faults.
ghost use Rattle.std.specs.Prelude.{◌≡◌, ◌≤◌, false, length, List, Some, IfOk, IfErr, IfSome, IsTrue, None};
ghost use Rattle.sha2.specs.Sha256.{sha256};
ghost use Rattle.bookmark_lock.specs.Place.{moved};
ghost use Rattle.bookmark_lock.specs.Turns.{IsTurn};
ghost use Rattle.history_model.specs.History.{Entry, content_len};
ghost use Rattle.history_model.specs.Journal.{Header};
ghost use Rattle.reply_model.specs.Reply.{ContentOf};
ghost use Rattle.reply_model.specs.After.{After, Answer, Answers, Looks, Replies, nothing, SeesMore};
ghost use Rattle.repo_calls.specs.Asking.{IsAnswer, fault_answer, is_bad_bytes};
ghost use Rattle.repo_state.specs.State.{reach};
ghost use Rattle.shared_repo.specs.Front.{IsFront, history_of, opening_of, sealed_of, disk_of, most_waiting};
ghost use Rattle.shared_repo.specs.Reading.{HasItsId, IsFoundOf, IsReadOf};

use crate::repo::Repo;
use crate::seat::RepoSeat;
use crate::turns::content_in;
use blob_disk::{Disk, Peer};
use content_table::Part;
use object_id::Id;
use repo_calls::{AskFault, Seen};
use repo_state::{ContentPlaces, ReadContent, RepoState, check_digest};
use std::alloc::{AllocError, Global};
use std::sync::Wait;

/// What a turn finds for a content: bytes that were read, or where they stand.
#[derive(Drop)]
pub(crate) enum Found<P: Peer> {
    Read(ReadContent),
    Stands(ContentPlaces<P>),
}

impl<D: Disk> Repo<D> {
    /// The bytes of a content.
    pub(crate) fn checked_content<R: Wait>(
        &self,
        rt: &R,
        alloc: Global,
        seat: &mut RepoSeat,
        id: Id,
    ) -> Result<Seen, AskFault>
        requires place { seat.old.lock ≡ self.now }
        ensures seat { seat.new ≡ moved seat.old seat.new }
        ensures seals { seat.old.sealed ≤ seat.new.sealed }
        ensures after { (answer : Answer) × IsAnswer result answer × After self.now.opening.header seat.old.front seat.old.number (Looks (ContentOf id)) answer seat.new.front }
        ensures honest { IsTrue self.now.opening.honest → is_bad_bytes result ≡ false }
        ensures front { IsFront self.now.opening seat.new.front }
    {
        match self.found_content(rt, alloc, seat, id) {
            Ok(Found::Read(read)) => checked(read, id),
            Ok(Found::Stands(places)) => self.content_outside(rt, alloc, seat, id, places),
            Err(fault) => Err(fault),
        }
    }

    // The turn in which a content is found.
    fn found_content<R: Wait>(
        &self,
        rt: &R,
        alloc: Global,
        seat: &mut RepoSeat,
        id: Id,
    ) -> Result<Found<D::Peer>, AskFault>
        requires place { seat.old.lock ≡ self.now }
        ensures seat { seat.new ≡ moved seat.old seat.new }
        ensures seals { seat.old.sealed ≤ seat.new.sealed }
        ensures ok { IfOk result (λ found. SeesMore seat.old.front seat.old.number seat.new.front × IsFoundOf seat.new.front id found) }
        ensures err { IfErr result (λ fault. After self.now.opening.header seat.old.front seat.old.number (Looks (ContentOf id)) (fault_answer fault) seat.new.front) }
        ensures honest { IsTrue self.now.opening.honest → IfOk result (HasItsId id) }
        ensures unchecked { is_bad_bytes result ≡ false }
        ensures front { IsFront self.now.opening seat.new.front }
    {
        let who = seat.inner.number();
        self.lock.enter(
            rt,
            &mut seat.inner,
            |state: &mut RepoState<D>| -> (bool, Result<Found<D::Peer>, AskFault>)
                ensures ok { IfOk result.1 (λ found. (state.new.history ≡ state.old.history) × IsFoundOf state.old.history id found) }
                ensures err { IfErr result.1 (λ fault. Replies state.old.opening.header state.old.history who (Looks (ContentOf id)) (fault_answer fault) state.new.history) }
                ensures honest { IsTrue state.old.opening.honest → IfOk result.1 (HasItsId id) }
                ensures unchecked { is_bad_bytes result.1 ≡ false }
                ensures turn { IsTurn history_of opening_of sealed_of reach disk_of most_waiting who None state.old state.new result.0 }
                ensures front { IsFront state.new.opening state.new.history }
            { found_in(state, alloc, who, id) },
        )
    }

    // The bytes of a content that stand at these places, if a second handle gives them. Else the disk is asked in a turn.
    fn content_outside<R: Wait>(
        &self,
        rt: &R,
        alloc: Global,
        seat: &mut RepoSeat,
        id: Id,
        places: ContentPlaces<D::Peer>,
    ) -> Result<Seen, AskFault>
        requires place { seat.old.lock ≡ self.now }
        requires stored { content_len seat.old.front id ≡ Some places.length }
        ensures seat { seat.new ≡ moved seat.old seat.new }
        ensures seals { seat.old.sealed ≤ seat.new.sealed }
        ensures after { (answer : Answer) × IsAnswer result answer × After self.now.opening.header seat.old.front seat.old.number (Looks (ContentOf id)) answer seat.new.front }
        ensures honest { IsTrue self.now.opening.honest → is_bad_bytes result ≡ false }
        ensures front { IsFront self.now.opening seat.new.front }
    {
        // It keeps its rules.
        let _ = &seat.inner;
        match looked_up(alloc, id, places) {
            Ok(Some(bytes)) => Ok(Seen::Bytes(bytes)),
            Ok(None) => self.content_in_turn(rt, alloc, seat, id),
            Err(_) => Err(AskFault::Memory),
        }
    }

    // The bytes of a content, for which the disk is asked in a turn. They are hashed outside of it, and where they have another
    // id the bytes of its parts, too.
    fn content_in_turn<R: Wait>(
        &self,
        rt: &R,
        alloc: Global,
        seat: &mut RepoSeat,
        id: Id,
    ) -> Result<Seen, AskFault>
        requires place { seat.old.lock ≡ self.now }
        ensures seat { seat.new ≡ moved seat.old seat.new }
        ensures seals { seat.old.sealed ≤ seat.new.sealed }
        ensures after { (answer : Answer) × IsAnswer result answer × After self.now.opening.header seat.old.front seat.old.number (Looks (ContentOf id)) answer seat.new.front }
        ensures honest { IsTrue self.now.opening.honest → is_bad_bytes result ≡ false }
        ensures front { IsFront self.now.opening seat.new.front }
    {
        match self.content_unchecked(rt, alloc, seat, id) {
            Ok(read) => checked(read, id),
            Err(fault) => Err(fault),
        }
    }

    // The turn in which the disk is asked for a content.
    fn content_unchecked<R: Wait>(
        &self,
        rt: &R,
        alloc: Global,
        seat: &mut RepoSeat,
        id: Id,
    ) -> Result<ReadContent, AskFault>
        requires place { seat.old.lock ≡ self.now }
        ensures seat { seat.new ≡ moved seat.old seat.new }
        ensures seals { seat.old.sealed ≤ seat.new.sealed }
        ensures ok { IfOk result (λ read. SeesMore seat.old.front seat.old.number seat.new.front × IsReadOf seat.new.front id read) }
        ensures err { IfErr result (λ fault. After self.now.opening.header seat.old.front seat.old.number (Looks (ContentOf id)) (fault_answer fault) seat.new.front) }
        ensures honest { IsTrue self.now.opening.honest → IfOk result (λ read. sha256 read.bytes.items ≡ id) }
        ensures unchecked { is_bad_bytes result ≡ false }
        ensures front { IsFront self.now.opening seat.new.front }
    {
        let who = seat.inner.number();
        self.lock.enter(
            rt,
            &mut seat.inner,
            |state: &mut RepoState<D>| -> (bool, Result<ReadContent, AskFault>)
                ensures ok { IfOk result.1 (λ read. (state.new.history ≡ state.old.history) × IsReadOf state.old.history id read) }
                ensures err { IfErr result.1 (λ fault. Replies state.old.opening.header state.old.history who (Looks (ContentOf id)) (fault_answer fault) state.new.history) }
                ensures honest { IsTrue state.old.opening.honest → IfOk result.1 (λ read. sha256 read.bytes.items ≡ id) }
                ensures unchecked { is_bad_bytes result.1 ≡ false }
                ensures turn { IsTurn history_of opening_of sealed_of reach disk_of most_waiting who None state.old state.new result.0 }
                ensures front { IsFront state.new.opening state.new.history }
            { content_in(state, alloc, who, id) },
        )
    }
}

// What a turn finds for a content: where its bytes stand, if they can be read outside of it, and else the bytes.
#[tactic(auto, using(crate::proofs::Turning::still_turn))]
fn found_in<D: Disk>(
    state: &mut RepoState<D>,
    alloc: Global,
    who: u64,
    id: Id,
) -> (bool, Result<Found<D::Peer>, AskFault>)
    ensures ok { IfOk result.1 (λ found. (state.new.history ≡ state.old.history) × IsFoundOf state.old.history id found) }
    ensures err { IfErr result.1 (λ fault. Replies state.old.opening.header state.old.history who (Looks (ContentOf id)) (fault_answer fault) state.new.history) }
    ensures honest { IsTrue state.old.opening.honest → IfOk result.1 (HasItsId id) }
    ensures unchecked { is_bad_bytes result.1 ≡ false }
    ensures turn { IsTurn history_of opening_of sealed_of reach disk_of most_waiting who None state.old state.new result.0 }
    ensures front { IsFront state.new.opening state.new.history }
{
    // It keeps its rules.
    let _length = state.history_length();
    if let Some(places) = state.content_places(alloc, id) {
        return (false, Ok(Found::Stands(places)));
    }
    match content_in(state, alloc, who, id) {
        (added, Ok(read)) => (added, Ok(Found::Read(read))),
        (added, Err(fault)) => (added, Err(fault)),
    }
}

// The bytes that the second handle gives, if they have this id. There are as many as there are to be.
fn looked_up<P: Peer>(
    alloc: Global,
    id: Id,
    places: ContentPlaces<P>,
) -> Result<Option<Vec<u8>>, AllocError>
    ensures { IfOk result (λ found. IfSome found (λ bytes. (length bytes.items ≡ places.length) × (sha256 bytes.items ≡ id))) }
{
    let ContentPlaces {
        length,
        parts,
        peer,
    } = places;
    let mut bytes = vec![in alloc; 0; length as usize]?;
    if look_all(&peer, &parts, &mut bytes) && Id::of(&bytes) == id {
        return Ok(Some(bytes));
    }
    Ok(None)
}

// Fills a buffer with the bytes of the parts, one behind another. False where the handle couldn't give them.
fn look_all<P: Peer>(peer: &P, parts: &[Part], buffer: &mut [u8]) -> bool {
    let mut done = 0;
    for part in parts {
        let length = part.place.length as usize;
        if length > buffer.len() - done {
            return false;
        }
        if !peer.look(part.place.at, &mut buffer[done..done + length]) {
            return false;
        }
        done += length;
    }
    done == buffer.len()
}

// What is read for a content, if it has its id. Else the first part is told whose bytes have another id, or the whole.
fn checked(read: ReadContent, id: Id) -> Result<Seen, AskFault>
    ensures answers { (header : Header) (h : List Entry) → IsReadOf h id read → (answer : Answer) × IsAnswer result answer × Answers header h (Looks (ContentOf id)) answer nothing }
    ensures bad { sha256 read.bytes.items ≡ id → is_bad_bytes result ≡ false }
{
    match check_digest(read, id) {
        Ok(bytes) => Ok(Seen::Bytes(bytes)),
        Err(fault) => Err(fault),
    }
}
