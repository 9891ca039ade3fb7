//! Changes of a repository that many seats share. An upload is hashed, decoded and put into its record outside of the turn,
//! which has what needs the repository, and no more. What is granted is sealed in a turn of its own before it is answered.
//! Contents that are to be joined are read in the turn: where the disk fails one of these reads, the turn enters that, and there
//! is nothing to seal.
ghost use Rattle.std.specs.Prelude.{◌≡◌, ◌≤◌, false, IsTrue, None};
ghost use Rattle.bookmark_lock.specs.Place.{moved};
ghost use Rattle.bookmark_lock.specs.Turns.{IsTurn};
ghost use Rattle.reply_model.specs.After.{After, Asks, Replies};
ghost use Rattle.reply_model.specs.Reply.{PutContent};
ghost use Rattle.repo_calls.specs.Calls.{call_seen};
ghost use Rattle.repo_machine.specs.Prepared.{asked_by};
ghost use Rattle.repo_calls.specs.Asking.{is_disk_fault, is_misread, is_unread, stored_answer};
ghost use Rattle.repo_state.specs.Asking.{is_join};
ghost use Rattle.repo_state.specs.State.{IsSound, reach};
ghost use Rattle.shared_repo.specs.Front.{IsFront, history_of, opening_of, sealed_of, disk_of, most_waiting};
ghost use Rattle.shared_repo.specs.Sealed.{IsEntered, IsLastTurn, IsLater, IsState, IsTold, Tells, placed_answer, UnlessRefused};
ghost use Rattle.repo_calls.specs.Sealing.{SealedAfter};

use crate::repo::Repo;
use crate::seat::RepoSeat;
use crate::turns::{Placed, TurnChange};
use blob_disk::Disk;
use bonsai::MOST_CONTENT;
use bookmark_lock::Seat;
use ports::{Gate, NoGate};
use repo_calls::{Ask, ChangeFault, Granted, Refusal};
use repo_machine::{FramedContent, prepare};
use repo_state::RepoState;
use std::alloc::Global;
use std::sync::Wait;

impl<D: Disk> Repo<D> {
    /// Makes a change. The gate is passed by landings alone. Contents are read only to be joined.
    pub fn change<R: Wait, G: Gate>(
        &self,
        rt: &R,
        alloc: Global,
        seat: &mut RepoSeat,
        ask: &Ask,
        gate: &G,
    ) -> Result<Granted, ChangeFault>
        requires place { seat.old.lock ≡ self.now }
        ensures seat { seat.new ≡ moved seat.old seat.new }
        ensures after { After self.now.opening.header seat.old.front seat.old.number (call_seen ask.now) (stored_answer result) seat.new.front }

        // Where it is granted, all up to its place is sealed.
        ensures sealed { SealedAfter seat.new.sealed self.now.opening.header seat.old.front seat.old.number (call_seen ask.now) (stored_answer result) seat.new.front }
        ensures seals { seat.old.sealed ≤ seat.new.sealed }

        // A crash at any moment of the call left what was sealed by then, or this with a group whose gate may stand open, and so
        // it is of its last turn with what was sealed before that.
        ensures stands { UnlessRefused result (IsLastTurn self.now.opening seat.old (is_disk_fault result) seat.new) }
        ensures read { is_join (call_seen ask.now) ≡ false → (is_unread result ≡ false) × (is_misread result ≡ false) }
        ensures honest { IsTrue self.now.opening.honest → is_misread result ≡ false }
        ensures front { IsFront self.now.opening seat.new.front }
    {
        match *ask {
            Ask::PutContent(_)
            | Ask::PutWhole(_)
            | Ask::PutChangeset(_)
            | Ask::SetBookmark { .. }
            | Ask::SetPolicy { .. } => self.store(rt, alloc, seat, ask),
            Ask::Land {
                caller,
                name,
                draft,
                moment,
            } => self.land_in_turns(rt, alloc, seat, caller, name, draft, moment, gate),
        }
    }

    // A change that is entered in one turn. What this turn looks up in manifests is derived before it.
    #[tactic(auto, using(crate::proofs::Sealings::memory_sealed))]
    fn store<R: Wait>(
        &self,
        rt: &R,
        alloc: Global,
        seat: &mut RepoSeat,
        ask: &Ask,
    ) -> Result<Granted, ChangeFault>
        requires place { seat.old.lock ≡ self.now }
        ensures seat { seat.new ≡ moved seat.old seat.new }
        ensures sealed { SealedAfter seat.new.sealed self.now.opening.header seat.old.front seat.old.number (call_seen ask.now) (stored_answer result) seat.new.front }
        ensures seals { seat.old.sealed ≤ seat.new.sealed }
        ensures stands { UnlessRefused result (IsLastTurn self.now.opening seat.old (is_disk_fault result) seat.new) }
        ensures honest { IsTrue self.now.opening.honest → is_misread result ≡ false }
        ensures front { IsFront self.now.opening seat.new.front }
    {
        // It keeps its rules.
        let _ = seat.inner.number();
        let Ok(prepared) = prepare(alloc, ask) else {
            return Err(ChangeFault::Refused(Refusal::Memory));
        };
        self.derive_parents(rt, alloc, seat, &prepared);
        self.store_ready(rt, alloc, seat, prepared)
    }

    /// Stores a content that is handed over, as `change` does. Its record is made in the room of its bytes.
    #[tactic(auto, using(crate::proofs::Sealings::memory_sealed))]
    pub fn put_owned<R: Wait>(
        &self,
        rt: &R,
        alloc: Global,
        seat: &mut RepoSeat,
        bytes: Vec<u8>,
    ) -> Result<Granted, ChangeFault>
        requires place { seat.old.lock ≡ self.now }
        ensures seat { seat.new ≡ moved seat.old seat.new }
        ensures after { After self.now.opening.header seat.old.front seat.old.number (Asks (PutContent bytes.items)) (stored_answer result) seat.new.front }
        ensures sealed { SealedAfter seat.new.sealed self.now.opening.header seat.old.front seat.old.number (Asks (PutContent bytes.items)) (stored_answer result) seat.new.front }
        ensures seals { seat.old.sealed ≤ seat.new.sealed }
        ensures stands { UnlessRefused result (IsLastTurn self.now.opening seat.old (is_disk_fault result) seat.new) }
        ensures honest { IsTrue self.now.opening.honest → is_misread result ≡ false }
        ensures front { IsFront self.now.opening seat.new.front }
    {
        if bytes.len() as u64 > MOST_CONTENT {
            return self.change(rt, alloc, seat, &Ask::PutContent(bytes.as_slice()), &NoGate);
        }
        // It keeps its rules.
        let _ = seat.inner.number();
        let Ok(content) = FramedContent::new(bytes) else {
            return Err(ChangeFault::Refused(Refusal::Memory));
        };
        self.store_ready(rt, alloc, seat, content)
    }

    // Stores what is ready.
    #[tactic(auto, using(crate::proofs::LastTurns::turn_front))]
    fn store_ready<R: Wait, C: TurnChange<D>>(
        &self,
        rt: &R,
        alloc: Global,
        seat: &mut RepoSeat,
        change: C,
    ) -> Result<Granted, ChangeFault>
        requires place { seat.old.lock ≡ self.now }
        requires ready { C.ready change }
        ensures seat { seat.new ≡ moved seat.old seat.new }
        ensures sealed { SealedAfter seat.new.sealed self.now.opening.header seat.old.front seat.old.number (C.asked change) (stored_answer result) seat.new.front }
        ensures seals { seat.old.sealed ≤ seat.new.sealed }
        ensures stands { UnlessRefused result (IsLastTurn self.now.opening seat.old (is_disk_fault result) seat.new) }
        ensures honest { IsTrue self.now.opening.honest → is_misread result ≡ false }
        ensures front { IsFront self.now.opening seat.new.front }
    {
        // It keeps its rules.
        let _ = seat.inner.number();
        let entered = self.enter_change(rt, alloc, &mut seat.inner, change);
        self.answer_sealed(rt, &mut seat.inner, entered)
    }

    // The turn of a change that is ready.
    #[tactic(auto, using(crate::proofs::Turning::entered_in, crate::proofs::Turning::later_in, crate::proofs::Turning::state_in))]
    fn enter_change<R: Wait, C: TurnChange<D>>(
        &self,
        rt: &R,
        alloc: Global,
        seat: &mut Seat,
        change: C,
    ) -> Result<Placed, ChangeFault>
        requires place { seat.old.lock ≡ self.now }
        requires none { seat.old.unsealed ≡ None }
        requires ready { C.ready change }
        ensures seat { seat.new ≡ moved seat.old seat.new }
        ensures entered { IsEntered self.now.opening.header seat.old (C.asked change) result seat.new.front }
        ensures told { IsTold result seat.new }
        ensures seals { seat.old.sealed ≤ seat.new.sealed }
        ensures later { IsLater seat.old seat.new }
        ensures honest { IsTrue self.now.opening.honest → is_misread result ≡ false }
        ensures stands { IsState self.now.opening seat.new }
    {
        let who = seat.number();
        self.lock.enter(
            rt,
            seat,
            |state: &mut RepoState<D>| -> (bool, Result<Placed, ChangeFault>)
                requires { C.ready change }
                ensures reply { Replies state.old.opening.header state.old.history who (C.asked change) (placed_answer result.1) state.new.history }
                ensures told { Tells result.1 state.new }
                ensures honest { IsTrue state.old.opening.honest → is_misread result.1 ≡ false }
                ensures turn { IsTurn history_of opening_of sealed_of reach disk_of most_waiting who None state.old state.new result.0 }
                ensures stands { IsSound state.new.opening state.new.history state.new.sealed (reach state.new) state.new.disk }
            { change.store_in(state, alloc, who) },
        )
    }
}
