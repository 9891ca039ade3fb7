//! Landings: planned under one turn, rebased outside of every turn, entered under another, and sealed under a third.
ghost use Rattle.std.specs.Prelude.{◌≡◌, ◌≤◌, IfOk, IfErr, IfNone, IfSome, MatchOption, false, None};
ghost use Rattle.bookmark_lock.specs.Place.{moved};
ghost use Rattle.bookmark_lock.specs.Turns.{IsTurn};
ghost use Rattle.reply_model.specs.Reply.{LandDraft};
ghost use Rattle.reply_model.specs.After.{Asks, Replies, SeesMore};
ghost use Rattle.repo_machine.specs.Plans.{IsPlan, WasPlanned};
ghost use Rattle.repo_calls.specs.Asking.{is_disk_fault, stored_answer};
ghost use Rattle.repo_state.specs.State.{IsSound, reach};
ghost use Rattle.shared_repo.specs.Front.{IsFront, history_of, opening_of, sealed_of, disk_of, most_waiting};
ghost use Rattle.shared_repo.specs.Landing.{IsEarlier, RefusesLanding};
ghost use Rattle.shared_repo.specs.Sealed.{IsEntered, IsLastTurn, IsLater, IsState, IsTold, Tells, placed_answer, UnlessRefused};
ghost use Rattle.repo_calls.specs.Sealing.{SealedAfter};

use crate::landing_turns::{land_in, plan_from};
use crate::repo::Repo;
use crate::seat::RepoSeat;
use crate::turns::{Placed, exchange_in};
use blob_disk::Disk;
use bookmark_lock::Seat;
use object_id::Id;
use ports::Gate;
use repo_calls::{ChangeFault, Granted, Refusal};
use repo_machine::{Plan, Rebased};
use repo_path::BookName;
use repo_state::RepoState;
use std::alloc::Global;
use std::sync::Wait;

// How often a landing is tried in two turns.
const MOST_ATTEMPTS: u32 = 99;

impl<D: Disk> Repo<D> {
    // An attempt plans under one turn, then rebases the stack and passes the gate outside of every turn, and enters the
    // landing under another turn; where it is granted, it is sealed under a third. Where the bookmark's head has moved
    // meanwhile it is made again, at most 99 times in all.
    // After that one turn is kept from the plan to the entry, and no gate is passed. Each attempt after the first makes the
    // plan of the one before again, which looks at what is new since then alone.
    #[tactic(auto, using(crate::proofs::Fronts::sees_nothing, crate::proofs::Fronts::own_plan, crate::proofs::Fronts::made_before, crate::proofs::Laters::later_none, crate::proofs::Laters::later_then))]
    pub(crate) fn land_in_turns<R: Wait, G: Gate>(
        &self,
        rt: &R,
        alloc: Global,
        seat: &mut RepoSeat,
        caller: &BookName,
        name: &BookName,
        draft: Id,
        moment: u64,
        gate: &G,
    ) -> Result<Granted, ChangeFault>
        requires place { seat.old.lock ≡ self.now }
        ensures seat { seat.new ≡ moved seat.old seat.new }
        ensures sealed { SealedAfter seat.new.sealed self.now.opening.header seat.old.front seat.old.number (Asks (LandDraft caller.now name.now draft moment)) (stored_answer result) seat.new.front }
        ensures seals { seat.old.sealed ≤ seat.new.sealed }
        ensures stands { UnlessRefused result (IsLastTurn self.now.opening seat.old (is_disk_fault result) seat.new) }
        ensures front { IsFront self.now.opening seat.new.front }
    {
        let mut earlier = None;
        for attempt in 0..MOST_ATTEMPTS {
            let plan = match self.plan(rt, alloc, seat, caller, name, draft, earlier) {
                Ok(plan) => plan,
                Err(refusal) => return Err(ChangeFault::Refused(refusal)),
            };
            if let Some(answer) = self.attempt(rt, alloc, seat, &plan, moment, gate, attempt) {
                return answer;
            }
            earlier = Some(plan);
        }
        self.land_in_one_turn(rt, alloc, seat, caller, name, draft, moment, earlier)
    }

    // The first turn of an attempt. There may be the plan of the attempt before.
    #[tactic(auto, using(crate::proofs::Fronts::earlier_later, crate::proofs::Turning::keeps_none, crate::proofs::Turning::still_turn, crate::proofs::Turning::later_in))]
    fn plan<R: Wait>(
        &self,
        rt: &R,
        alloc: Global,
        seat: &mut RepoSeat,
        caller: &BookName,
        name: &BookName,
        draft: Id,
        earlier: Option<Plan>,
    ) -> Result<Plan, Refusal>
        requires place { seat.old.lock ≡ self.now }
        requires earlier { IsEarlier seat.old.front caller.now name.now draft earlier }
        ensures seat { seat.new ≡ moved seat.old seat.new }
        ensures more { SeesMore seat.old.front seat.old.number seat.new.front }
        ensures seals { seat.old.sealed ≤ seat.new.sealed }
        ensures later { IsLater seat.old seat.new }
        ensures ok { IfOk result (IsPlan seat.new.front caller.now name.now draft) }
        ensures err { IfErr result (RefusesLanding self.now.opening.header seat.new.front caller.now name.now draft) }
        ensures front { IsFront self.now.opening seat.new.front }
    {
        self.lock.enter(
            rt,
            &mut seat.inner,
            |state: &mut RepoState<D>| -> (bool, Result<Plan, Refusal>)
                requires { IsEarlier state.old.history caller.now name.now draft earlier }
                ensures same { state.new.history ≡ state.old.history }
                ensures opening { state.new.opening ≡ state.old.opening }
                ensures sealed { state.new.sealed ≡ state.old.sealed }
                ensures disk { state.new.disk ≡ state.old.disk }
                ensures reaches { reach state.new ≡ reach state.old }
                ensures none { result.0 ≡ false }
                ensures ok { IfOk result.1 (IsPlan state.old.history caller.entry.now name.entry.now draft) }
                ensures err { IfErr result.1 (RefusesLanding state.old.opening.header state.old.history caller.entry.now name.entry.now draft) }
                ensures front { IsFront state.new.opening state.new.history }
            { (false, plan_from(state, alloc, caller, name, draft, earlier)) },
        )
    }

    // The rest of an attempt: the landing's answer, or none where the head moved since the plan.
    #[tactic(auto, using(crate::proofs::Sealings::memory_sealed, crate::proofs::LastTurns::turn_front, crate::proofs::Fronts::planned_here))]
    fn attempt<R: Wait, G: Gate>(
        &self,
        rt: &R,
        alloc: Global,
        seat: &mut RepoSeat,
        plan: &Plan,
        moment: u64,
        gate: &G,
        attempt: u32,
    ) -> Option<Result<Granted, ChangeFault>>
        requires place { seat.old.lock ≡ self.now }
        requires planned { IsPlan seat.old.front plan.now.caller plan.now.name plan.now.draft plan.now }
        ensures seat { seat.new ≡ moved seat.old seat.new }
        ensures sealed { MatchOption result (SeesMore seat.old.front seat.old.number seat.new.front) (λ answer. SealedAfter seat.new.sealed self.now.opening.header seat.old.front seat.old.number (Asks (LandDraft plan.now.caller plan.now.name plan.now.draft moment)) (stored_answer answer) seat.new.front) }
        ensures seals { seat.old.sealed ≤ seat.new.sealed }
        ensures later { IfNone result (IsLater seat.old seat.new) }
        ensures stands { IfSome result (λ answer. UnlessRefused answer (IsLastTurn self.now.opening seat.old (is_disk_fault answer) seat.new)) }
        ensures front { IsFront self.now.opening seat.new.front }
    {
        let who = seat.inner.number();
        let Ok(rebased) = plan.rebased(alloc, moment) else {
            return Some(Err(ChangeFault::Refused(Refusal::Memory)));
        };
        gate.between(who, attempt);
        let entered = self.exchange(rt, alloc, &mut seat.inner, rebased)?;
        Some(self.answer_sealed(rt, &mut seat.inner, entered))
    }

    // The second turn of an attempt: what came of the landing, or none where the head has moved.
    #[tactic(auto, using(repo_machine::proofs::Planning::was_planned, crate::proofs::Turning::entered_in, crate::proofs::Turning::later_in, crate::proofs::Turning::state_in))]
    fn exchange<R: Wait>(
        &self,
        rt: &R,
        alloc: Global,
        seat: &mut Seat,
        rebased: Rebased,
    ) -> Option<Result<Placed, ChangeFault>>
        requires place { seat.old.lock ≡ self.now }
        requires none { seat.old.unsealed ≡ None }
        requires planned { WasPlanned seat.old.front rebased }
        ensures seat { seat.new ≡ moved seat.old seat.new }
        ensures entered { MatchOption result (SeesMore seat.old.front seat.old.number seat.new.front) (λ entered. IsEntered self.now.opening.header seat.old (Asks (LandDraft rebased.caller rebased.name rebased.draft rebased.asked)) entered seat.new.front) }
        ensures told { MatchOption result (seat.new.unsealed ≡ None) (λ entered. IsTold entered seat.new) }
        ensures seals { seat.old.sealed ≤ seat.new.sealed }
        ensures later { IsLater seat.old seat.new }
        ensures stands { IsState self.now.opening seat.new }
    {
        let who = seat.number();
        self.lock.enter(
            rt,
            seat,
            |state: &mut RepoState<D>| -> (bool, Option<Result<Placed, ChangeFault>>)
                requires { WasPlanned state.old.history rebased }
                ensures reply { MatchOption result.1 (state.new.history ≡ state.old.history) (λ entered. Replies state.old.opening.header state.old.history who (Asks (LandDraft rebased.caller rebased.name rebased.draft rebased.asked)) (placed_answer entered) state.new.history) }
                ensures told { IfSome result.1 (λ entered. Tells entered state.new) }
                ensures turn { IsTurn history_of opening_of sealed_of reach disk_of most_waiting who None state.old state.new result.0 }
                ensures stands { IsSound state.new.opening state.new.history state.new.sealed (reach state.new) state.new.disk }
            { exchange_in(state, alloc, who, rebased) },
        )
    }

    // The last attempt: the bookmark can't move from its plan to its entry.
    #[tactic(auto, using(crate::proofs::LastTurns::turn_front))]
    fn land_in_one_turn<R: Wait>(
        &self,
        rt: &R,
        alloc: Global,
        seat: &mut RepoSeat,
        caller: &BookName,
        name: &BookName,
        draft: Id,
        moment: u64,
        earlier: Option<Plan>,
    ) -> Result<Granted, ChangeFault>
        requires place { seat.old.lock ≡ self.now }
        requires earlier { IsEarlier seat.old.front caller.now name.now draft earlier }
        ensures seat { seat.new ≡ moved seat.old seat.new }
        ensures sealed { SealedAfter seat.new.sealed self.now.opening.header seat.old.front seat.old.number (Asks (LandDraft caller.now name.now draft moment)) (stored_answer result) seat.new.front }
        ensures seals { seat.old.sealed ≤ seat.new.sealed }
        ensures stands { UnlessRefused result (IsLastTurn self.now.opening seat.old (is_disk_fault result) seat.new) }
        ensures front { IsFront self.now.opening seat.new.front }
    {
        let entered = self.enter_landing(
            rt,
            alloc,
            &mut seat.inner,
            caller,
            name,
            draft,
            moment,
            earlier,
        );
        self.answer_sealed(rt, &mut seat.inner, entered)
    }

    // The turn of the last attempt.
    #[tactic(auto, using(crate::proofs::Fronts::earlier_later, crate::proofs::Turning::entered_in, crate::proofs::Turning::later_in, crate::proofs::Turning::state_in))]
    fn enter_landing<R: Wait>(
        &self,
        rt: &R,
        alloc: Global,
        seat: &mut Seat,
        caller: &BookName,
        name: &BookName,
        draft: Id,
        moment: u64,
        earlier: Option<Plan>,
    ) -> Result<Placed, ChangeFault>
        requires place { seat.old.lock ≡ self.now }
        requires none { seat.old.unsealed ≡ None }
        requires earlier { IsEarlier seat.old.front caller.now name.now draft earlier }
        ensures seat { seat.new ≡ moved seat.old seat.new }
        ensures entered { IsEntered self.now.opening.header seat.old (Asks (LandDraft caller.now name.now draft moment)) result seat.new.front }
        ensures told { IsTold result seat.new }
        ensures seals { seat.old.sealed ≤ seat.new.sealed }
        ensures later { IsLater seat.old seat.new }
        ensures stands { IsState self.now.opening seat.new }
    {
        let who = seat.number();
        self.lock.enter(
            rt,
            seat,
            |state: &mut RepoState<D>| -> (bool, Result<Placed, ChangeFault>)
                requires { IsEarlier state.old.history caller.now name.now draft earlier }
                ensures reply { Replies state.old.opening.header state.old.history who (Asks (LandDraft caller.entry.now name.entry.now draft moment)) (placed_answer result.1) state.new.history }
                ensures told { Tells result.1 state.new }
                ensures turn { IsTurn history_of opening_of sealed_of reach disk_of most_waiting who None state.old state.new result.0 }
                ensures stands { IsSound state.new.opening state.new.history state.new.sealed (reach state.new) state.new.disk }
            { land_in(state, alloc, who, caller, name, draft, moment, earlier) },
        )
    }
}
