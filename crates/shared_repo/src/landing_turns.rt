//! What a landing does in its turns, where an attempt before may have left its plan.
ghost use Rattle.std.specs.Prelude.{◌≡◌, ◌<◌, IfOk, IfErr, None};
ghost use Rattle.bookmark_lock.specs.Turns.{IsTurn};
ghost use Rattle.reply_model.specs.After.{Asks, Replies};
ghost use Rattle.reply_model.specs.Reply.{LandDraft};
ghost use Rattle.repo_machine.specs.Again.{WasPlan};
ghost use Rattle.repo_machine.specs.Plans.{IsPlan};
ghost use Rattle.repo_state.specs.State.{IsSound, reach};
ghost use Rattle.shared_repo.specs.Front.{IsFront, history_of, opening_of, sealed_of, disk_of, most_waiting};
ghost use Rattle.shared_repo.specs.Landing.{IsEarlier, RefusesLanding};
ghost use Rattle.shared_repo.specs.Sealed.{Tells, placed_answer};

use crate::turns::{Placed, exchange_in, plan_in};
use ancestry::Steps;
use blob_disk::Disk;
use object_id::Id;
use repo_calls::{ChangeFault, Refusal};
use repo_machine::Plan;
use repo_path::BookName;
use repo_state::RepoState;
use std::alloc::Global;
use std::marker::Brand;
use std::sync::ledger::{Blank, Ledger};

// The plan: that of the attempt before, made again, or a new one.
#[tactic(auto, using(crate::proofs::Landings::planned_again, crate::proofs::Landings::refused_again))]
pub(crate) fn plan_from<D: Disk>(
    state: &mut RepoState<D>,
    alloc: Global,
    caller: &BookName,
    name: &BookName,
    draft: Id,
    earlier: Option<Plan>,
) -> Result<Plan, Refusal>
    requires earlier { IsEarlier state.old.history caller.now name.now draft earlier }
    ensures same { state.new.history ≡ state.old.history }
    ensures opening { state.new.opening ≡ state.old.opening }
    ensures sealed { state.new.sealed ≡ state.old.sealed }
    ensures disk { state.new.disk ≡ state.old.disk }
    ensures reaches { reach state.new ≡ reach state.old }
    ensures ok { IfOk result (IsPlan state.old.history caller.now name.now draft) }
    ensures err { IfErr result (RefusesLanding state.old.opening.header state.old.history caller.now name.now draft) }
    ensures front { IsFront state.new.opening state.new.history }
    ensures stands { IsSound state.new.opening state.new.history state.new.sealed (reach state.new) state.new.disk }
{
    match earlier {
        Some(plan) => plan_again_in::<D, Brand>(state, alloc, plan, Blank::new(1)),
        None => plan_in(state, alloc, caller, name, draft),
    }
}

// The plan made again. Nobody reads the count of steps.
#[tactic(auto, using(crate::proofs::Landings::refused_plan))]
fn plan_again_in<D: Disk, L: Ledger>(
    state: &mut RepoState<D>,
    alloc: Global,
    plan: Plan,
    blank: Blank,
) -> Result<Plan, Refusal>
    requires name { blank.name ≡ L.name }
    requires parts { blank.parts ≡ L.parts }
    requires some { 0 < blank.parts }
    requires planned { WasPlan state.old.history plan }
    ensures same { state.new.history ≡ state.old.history }
    ensures opening { state.new.opening ≡ state.old.opening }
    ensures sealed { state.new.sealed ≡ state.old.sealed }
    ensures disk { state.new.disk ≡ state.old.disk }
    ensures reaches { reach state.new ≡ reach state.old }
    ensures ok { IfOk result (IsPlan state.old.history plan.caller plan.name plan.draft) }
    ensures err { IfErr result (RefusesLanding state.old.opening.header state.old.history plan.caller plan.name plan.draft) }
    ensures front { IsFront state.new.opening state.new.history }
    ensures stands { IsSound state.new.opening state.new.history state.new.sealed (reach state.new) state.new.disk }
{
    // It keeps its rules.
    let _ = state.history_length();
    let mut steps = Steps::<L>::new(blank);
    state.plan_again(alloc, plan, &mut steps)
}

// A whole landing, during which the bookmark can't move.
#[tactic(auto, using(crate::proofs::Fronts::planned_here, crate::proofs::Fronts::asked_for, crate::proofs::Turning::turn_from, repo_machine::proofs::Judging::replies_memory))]
pub(crate) fn land_in<D: Disk>(
    state: &mut RepoState<D>,
    alloc: Global,
    who: u64,
    caller: &BookName,
    name: &BookName,
    draft: Id,
    moment: u64,
    earlier: Option<Plan>,
) -> (bool, Result<Placed, ChangeFault>)
    requires earlier { IsEarlier state.old.history caller.now name.now draft earlier }
    ensures reply { Replies state.old.opening.header state.old.history who (Asks (LandDraft caller.now name.now draft moment)) (placed_answer result.1) state.new.history }
    ensures told { Tells result.1 state.new }
    ensures turn { IsTurn history_of opening_of sealed_of reach disk_of most_waiting who None state.old state.new result.0 }
    ensures stands { IsSound state.new.opening state.new.history state.new.sealed (reach state.new) state.new.disk }
{
    let plan = match plan_from(state, alloc, caller, name, draft, earlier) {
        Ok(plan) => plan,
        Err(refusal) => return (false, Err(ChangeFault::Refused(refusal))),
    };
    let Ok(rebased) = plan.rebased(alloc, moment) else {
        return (false, Err(ChangeFault::Refused(Refusal::Memory)));
    };
    let (added, entered) = exchange_in(state, alloc, who, rebased);
    (added, entered.unwrap())
}
