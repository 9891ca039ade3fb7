//! What is granted is sealed before it is answered, in turns of which the first comes behind those that are waited for
//! already: the group then has what these seats stored too. Its two syncs are made between the turns, while others have theirs.
ghost use Rattle.std.specs.Prelude.{◌≡◌, ◌<◌, ◌≤◌, true, false, None, Option, is_err, IfNone, IfSome, IfOk, IfErr, OnOk, OnErr};
ghost use Rattle.bookmark_lock.specs.Place.{Place, Unsealed, moved};
ghost use Rattle.bookmark_lock.specs.Turns.{IsTurn, stored_length};
ghost use Rattle.history_model.specs.History.{is_down};
ghost use Rattle.history_model.specs.Journal.{Header};
ghost use Rattle.reply_model.specs.After.{Call};
ghost use Rattle.repo_calls.specs.Asking.{is_disk_fault, is_misread, stored_answer};
ghost use Rattle.repo_calls.specs.declared.calls.ChangeFault.TheVariants as faults;
ghost use Rattle.repo_state.specs.Groups.{is_sealed};
ghost use Rattle.repo_state.specs.State.{after_seal, reach};
ghost use Rattle.shared_repo.specs.Front.{history_of, opening_of, sealed_of, disk_of, most_waiting};
ghost use Rattle.shared_repo.specs.Sealed.{GoesOn, IsAt, IsEntered, IsLastTurn, IsSealOf, IsSeen, IsState, IsTold, is_last};
ghost use Rattle.repo_calls.specs.Sealing.{SealedAfter};

use crate::repo::Repo;
use crate::turns::Placed;
use blob_disk::{Disk, Flush};
use bookmark_lock::Seat;
use repo_calls::{ChangeFault, Granted};
use repo_journal::DiskFault;
use repo_state::{RepoState, Sealing};
use std::sync::Wait;

// The next step of a seal that sees to it that the first `upto` stored entries are sealed.
#[tactic(auto, using(crate::proofs::Turning::seal_turns, crate::proofs::Turning::seal_fails))]
fn seal_in<D: Disk>(
    state: &mut RepoState<D>,
    who: u64,
    upto: u64,
    flush: Option<D::Flush>,
) -> (bool, Result<Sealing<D::Flush>, DiskFault>)
    requires upto { upto ≤ stored_length state.old.history }
    ensures done { is_sealed result.1 ≡ true → upto ≤ state.new.sealed }
    ensures failed { OnErr result.1 (is_down state.new.history ≡ true) }
    ensures history { state.new.history ≡ after_seal who (is_err result.1) state.old.history }
    ensures turn { (unsealed : Option Unsealed) → IsTurn history_of opening_of sealed_of reach disk_of most_waiting who unsealed state.old state.new result.0 }
    ensures seals { is_last result.1 ≡ true → IsSealOf who (is_err result.1) state.old state.new }
{
    // It keeps its rules.
    let _length = state.history_length();
    let up = !state.down();
    match state.seal_step(who, upto, flush) {
        Ok(step) => (false, Ok(step)),
        Err(fault) => (up, Err(fault)),
    }
}

// The sync, once it was made.
fn made<F: Flush>(flush: F) -> F {
    let mut flush = flush;
    flush.run();
    flush
}

impl<D: Disk> Repo<D> {
    /// The answer to a change, of which this came in the seat's turn before. What is granted is sealed first, with all that
    /// was stored before it; of any other there is nothing to seal.
    pub(crate) fn answer_sealed<R: Wait>(
        &self,
        rt: &R,
        seat: &mut Seat,
        entered: Result<Placed, ChangeFault>,
    ) -> Result<Granted, ChangeFault>
        requires place { seat.old.lock ≡ self.now }
        requires told { IsTold entered seat.old }
        requires stands { IsState self.now.opening seat.old }
        ensures seat { seat.new ≡ moved seat.old seat.new }
        ensures sealed { (header : Header) (old : Place) (call : Call) → old.number ≡ seat.old.number → IsEntered header old call entered seat.old.front → SealedAfter seat.new.sealed header old.front old.number call (stored_answer result) seat.new.front }
        ensures seals { seat.old.sealed ≤ seat.new.sealed }
        ensures none { seat.new.unsealed ≡ None }
        ensures misread { is_misread result ≡ is_misread entered }
        ensures stands { IsLastTurn self.now.opening seat.old (is_disk_fault result) seat.new }
    {
        match entered {
            Ok(placed) => self.see_sealed(rt, seat, placed),
            Err(fault) => Err(fault),
        }
    }

    // What is granted, once all that was stored at the end of its turn is sealed.
    #[tactic(auto, using(crate::proofs::Turning::seen_same, crate::proofs::LastTurns::turn_still))]
    fn see_sealed<R: Wait>(
        &self,
        rt: &R,
        seat: &mut Seat,
        placed: Placed,
    ) -> Result<Granted, ChangeFault>
        requires place { seat.old.lock ≡ self.now }
        requires at { IsAt placed seat.old }
        requires stands { IsState self.now.opening seat.old }
        ensures seat { seat.new ≡ moved seat.old seat.new }
        ensures ok { IfOk result (λ granted. (granted ≡ placed.granted) × (stored_length seat.old.front ≤ seat.new.sealed)) }
        ensures err { IfErr result (λ fault. (fault ≡ faults.DiskFault) × (is_down seat.new.front ≡ true)) }
        ensures seen { IsSeen seat.old seat.new }
        ensures misread { is_misread result ≡ false }
        ensures stands { IsLastTurn self.now.opening seat.old (is_disk_fault result) seat.new }
    {
        let Placed {
            granted,
            stored,
            sealed,
        } = placed;
        if stored <= sealed {
            return Ok(granted);
        }
        match self.seal(rt, seat, stored) {
            Ok(()) => Ok(granted),
            Err(_) => Err(ChangeFault::DiskFault),
        }
    }

    // Sees to it that the first `upto` stored entries are sealed, in turns of which the first stands back, so that the group
    // has what is stored in the turns that are waited for. The others don't, since all wait for them.
    fn seal<R: Wait>(&self, rt: &R, seat: &mut Seat, upto: u64) -> Result<(), DiskFault>
        requires place { seat.old.lock ≡ self.now }
        requires upto { upto ≡ stored_length seat.old.front }
        requires keeps { IfSome seat.old.unsealed (λ (u : Unsealed). u.last < upto) }
        ensures seat { seat.new ≡ moved seat.old seat.new }
        ensures done { OnOk result (upto ≤ seat.new.sealed) }
        ensures failed { OnErr result (is_down seat.new.front ≡ true) }
        ensures seen { IsSeen seat.old seat.new }
        ensures stands { IsLastTurn self.now.opening seat.old (is_err result) seat.new }
    {
        self.lock.stand_behind(rt, seat);
        self.seal_in_turns(rt, seat, upto)
    }

    // The turns.
    #[tactic(auto, using(crate::proofs::Laters::goes_none))]
    fn seal_in_turns<R: Wait>(&self, rt: &R, seat: &mut Seat, upto: u64) -> Result<(), DiskFault>
        requires place { seat.old.lock ≡ self.now }
        requires upto { upto ≡ stored_length seat.old.front }
        requires keeps { IfSome seat.old.unsealed (λ (u : Unsealed). u.last < upto) }
        ensures seat { seat.new ≡ moved seat.old seat.new }
        ensures done { OnOk result (upto ≤ seat.new.sealed) }
        ensures failed { OnErr result (is_down seat.new.front ≡ true) }
        ensures seen { IsSeen seat.old seat.new }
        ensures stands { IsLastTurn self.now.opening seat.old (is_err result) seat.new }
    {
        let mut flush = None;
        for _ in rt.forever() {
            if let Some(answer) = self.seal_round(rt, seat, upto, &mut flush) {
                return answer;
            }
        }
        unreachable!()
    }

    // A turn, and what comes before the next: the sync that the turn handed out, or the end of the group of another seat. None
    // where there is to be a next.
    fn seal_round<R: Wait>(
        &self,
        rt: &R,
        seat: &mut Seat,
        upto: u64,
        flush: &mut Option<D::Flush>,
    ) -> Option<Result<(), DiskFault>>
        requires place { seat.old.lock ≡ self.now }
        requires upto { upto ≤ stored_length seat.old.front }
        requires keeps { IfSome seat.old.unsealed (λ (u : Unsealed). u.last < upto) }
        ensures seat { seat.new ≡ moved seat.old seat.new }
        ensures goes { IfNone result (GoesOn upto seat.old seat.new) }
        ensures done { IfSome result (λ answer. OnOk answer (upto ≤ seat.new.sealed)) }
        ensures failed { IfSome result (λ answer. OnErr answer (is_down seat.new.front ≡ true)) }
        ensures seen { IfSome result (λ _. IsSeen seat.old seat.new) }
        ensures stands { IfSome result (λ answer. IsLastTurn self.now.opening seat.old (is_err answer) seat.new) }
    {
        // Read before the turn: a group that is under way in it ends after this.
        let ended = self.lock.ended();
        let brings = flush.is_some();
        match self.seal_turn(rt, seat, upto, flush.take()) {
            Ok(Sealing::Sealed) => {
                self.tell_ended(seat, brings);
                Some(Ok(()))
            }
            Ok(Sealing::UnderWay) => {
                self.lock.wait_ended(rt, seat, ended);
                None
            }
            Ok(Sealing::Syncs(next)) => {
                *flush = Some(made(next));
                None
            }
            Err(fault) => {
                self.tell_ended(seat, true);
                Some(Err(fault))
            }
        }
    }

    // Those who wait for the end of a group are told of it, if this seat ended one.
    fn tell_ended(&self, seat: &mut Seat, ends: bool)
        requires place { seat.old.lock ≡ self.now }
        ensures { seat.new ≡ seat.old }
    {
        if ends {
            self.lock.tell_ended(seat);
        }
    }

    // The turn of a step.
    #[tactic(auto, using(crate::proofs::Turning::stored_in))]
    fn seal_turn<R: Wait>(
        &self,
        rt: &R,
        seat: &mut Seat,
        upto: u64,
        flush: Option<D::Flush>,
    ) -> Result<Sealing<D::Flush>, DiskFault>
        requires place { seat.old.lock ≡ self.now }
        requires upto { upto ≤ stored_length seat.old.front }
        requires keeps { IfSome seat.old.unsealed (λ (u : Unsealed). u.last < upto) }
        ensures seat { seat.new ≡ moved seat.old seat.new }
        ensures done { is_sealed result ≡ true → upto ≤ seat.new.sealed }
        ensures failed { OnErr result (is_down seat.new.front ≡ true) }
        ensures goes { is_last result ≡ false → GoesOn upto seat.old seat.new }
        ensures seen { is_last result ≡ true → IsSeen seat.old seat.new }
        ensures stands { is_last result ≡ true → IsLastTurn self.now.opening seat.old (is_err result) seat.new }
    {
        let who = seat.number();
        self.lock.enter(
            rt,
            seat,
            |state: &mut RepoState<D>| -> (bool, Result<Sealing<D::Flush>, DiskFault>)
                requires { upto ≤ stored_length state.old.history }
                ensures done { is_sealed result.1 ≡ true → upto ≤ state.new.sealed }
                ensures failed { OnErr result.1 (is_down state.new.history ≡ true) }
                ensures history { state.new.history ≡ after_seal who (is_err result.1) state.old.history }
                ensures turn { (unsealed : Option Unsealed) → IsTurn history_of opening_of sealed_of reach disk_of most_waiting who unsealed state.old state.new result.0 }
                ensures seals { is_last result.1 ≡ true → IsSealOf who (is_err result.1) state.old state.new }
            { seal_in(state, who, upto, flush) },
        )
    }
}
