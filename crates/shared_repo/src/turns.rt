//! What a seat does with the repository in one turn, and whether it made an entry.
ghost use Rattle.std.specs.Prelude.{◌≡◌, ◌≢◌, false, IfOk, IfErr, IfSome, IsSome, IsTrue, length, MatchBool, MatchOption, Some, None};
ghost use Rattle.std.specs.Arc.{arc_value};
ghost use Rattle.sha2.specs.Sha256.{sha256};
ghost use Rattle.bookmark_lock.specs.Turns.{IsTurn};
ghost use Rattle.history_model.specs.Bookmark.{head};
ghost use Rattle.history_model.specs.History.{changeset_of, known};
ghost use Rattle.reply_model.specs.After.{Answer, Answers, Asks, Call, Looks, Replies, nothing};
ghost use Rattle.reply_model.specs.Reply as reply;
ghost use Rattle.reply_model.specs.Reply.{ChangesetOf, ContentOf, LandDraft, PutContent};
ghost use Rattle.repo_machine.specs.Plans.{IsPlan, WasPlanned};
ghost use Rattle.repo_machine.specs.Prepared.{IsPrepared, asked_by};
ghost use Rattle.repo_calls.specs.Asking.{IsAnswer, fault_answer, is_bad_bytes, is_disk_fault, is_misread, question_seen, stored_answer};
ghost use Rattle.repo_state.specs.State.{IsSound, reach};
ghost use Rattle.shared_repo.specs.Front.{IsFront, history_of, opening_of, sealed_of, disk_of, most_waiting};
ghost use Rattle.shared_repo.specs.Landing.{RefusesLanding, outcome_of};
ghost use Rattle.shared_repo.specs.Reading.{IsReadOf};
ghost use Rattle.shared_repo.specs.Sealed.{Tells, placed_answer};

use blob_disk::Disk;
use bonsai::Commit;
use object_id::Id;
use repo_calls::{AskFault, ChangeFault, Granted, Question, Refusal, Seen};
use repo_machine::{FramedContent, Plan, Prepared, Rebased};
use repo_path::BookName;
use repo_state::{Exchanged, ReadContent, RepoState};
use std::alloc::Global;
use std::sync::Arc;

fn differ(before: u64, after: u64) -> bool
    ensures { MatchBool result (after ≢ before) (after ≡ before) }
{
    before != after
}

/// A change that was granted in a turn, at whose end so many entries are stored, and so many of them sealed. It is answered
/// once all that are stored then are sealed.
#[derive(Drop)]
pub(crate) struct Placed {
    pub(crate) granted: Granted,
    pub(crate) stored: u64,
    pub(crate) sealed: u64,
}

// What was granted, at the end of its turn, in which nothing was sealed.
fn with_counts<D: Disk>(
    state: &RepoState<D>,
    granted: Result<Granted, ChangeFault>,
) -> Result<Placed, ChangeFault>
    requires { is_disk_fault granted ≡ false }
    ensures answer { placed_answer result ≡ stored_answer granted }
    ensures told { Tells result state.now }
    ensures disk { is_disk_fault result ≡ false }
    ensures misread { is_misread result ≡ is_misread granted }
{
    match granted {
        Ok(granted) => Ok(Placed {
            granted,
            stored: state.stored_length(),
            sealed: state.sealed(),
        }),
        Err(fault) => Err(fault),
    }
}

/// A change that is ready, as a turn makes it. The closure of a turn keeps its contract where it captures a value of such a
/// type, and not where it captures one of a type that names a lifetime.
pub(crate) trait TurnChange<D: Disk>: Drop {
    /// What is asked for.
    ghost asked: { Self → Call };

    /// What has to be so of it.
    ghost ready: { Self → Type 0 };

    fn store_in(
        self,
        state: &mut RepoState<D>,
        alloc: Global,
        who: u64,
    ) -> (bool, Result<Placed, ChangeFault>)
        requires { ready self }
        ensures reply { Replies state.old.opening.header state.old.history who (asked self) (placed_answer result.1) state.new.history }
        ensures told { Tells result.1 state.new }
        ensures honest { IsTrue state.old.opening.honest → is_misread result.1 ≡ false }
        ensures turn { IsTurn history_of opening_of sealed_of reach disk_of most_waiting who None state.old state.new result.0 }
        ensures stands { IsSound state.new.opening state.new.history state.new.sealed (reach state.new) state.new.disk };
}

impl<D: Disk> TurnChange<D> for Prepared<'_> {
    ghost asked = { asked_by };

    ghost ready = { IsPrepared };

    #[tactic(auto, using(crate::proofs::Made::change_adds, crate::proofs::Made::change_ends))]
    fn store_in(
        self,
        state: &mut RepoState<D>,
        alloc: Global,
        who: u64,
    ) -> (bool, Result<Placed, ChangeFault>) {
        let before = state.history_length();
        let granted = state.store_prepared(alloc, who, self);
        let added = differ(before, state.history_length());
        (added, with_counts(state, granted))
    }
}

impl<D: Disk> TurnChange<D> for FramedContent {
    ghost asked = { λ content. Asks (PutContent content) };

    ghost ready = { λ _. Unit {0} };

    #[tactic(auto, using(crate::proofs::Made::change_adds, crate::proofs::Made::change_ends))]
    fn store_in(
        self,
        state: &mut RepoState<D>,
        alloc: Global,
        who: u64,
    ) -> (bool, Result<Placed, ChangeFault>) {
        let before = state.history_length();
        let stored = state.store_framed(alloc, who, self);
        let added = differ(before, state.history_length());
        (added, with_counts(state, stored))
    }
}

/// A read, as a turn answers it, for the same reason.
pub(crate) trait TurnRead<D: Disk> {
    /// What is asked.
    ghost asked: { Self → reply.Question };

    fn look_in(
        &self,
        state: &mut RepoState<D>,
        alloc: Global,
        who: u64,
    ) -> (bool, Result<Seen, AskFault>)
        ensures reply { (answer : Answer) × IsAnswer result.1 answer × Replies state.old.opening.header state.old.history who (Looks (asked self.now)) answer state.new.history }
        ensures honest { IsTrue state.old.opening.honest → is_bad_bytes result.1 ≡ false }
        ensures turn { IsTurn history_of opening_of sealed_of reach disk_of most_waiting who None state.old state.new result.0 }
        ensures front { IsFront state.new.opening state.new.history };
}

impl<D: Disk> TurnRead<D> for Question<'_> {
    ghost asked = { question_seen };

    fn look_in(
        &self,
        state: &mut RepoState<D>,
        alloc: Global,
        who: u64,
    ) -> (bool, Result<Seen, AskFault>) {
        let before = state.history_length();
        let answer = state.look(alloc, who, self);
        (differ(before, state.history_length()), answer)
    }
}

// What is read for a content, before digests are compared.
#[tactic(auto, using(crate::proofs::Made::look_adds, crate::proofs::Made::look_ends, crate::proofs::Lastings::state_looked, crate::proofs::Turning::looked_turn))]
pub(crate) fn content_in<D: Disk>(
    state: &mut RepoState<D>,
    alloc: Global,
    who: u64,
    id: Id,
) -> (bool, Result<ReadContent, AskFault>)
    ensures ok { IfOk result.1 (λ read. (state.new.history ≡ state.old.history) × IsReadOf state.old.history id read) }
    ensures err { IfErr result.1 (λ fault. Replies state.old.opening.header state.old.history who (Looks (ContentOf id)) (fault_answer fault) state.new.history) }
    ensures honest { IsTrue state.old.opening.honest → IfOk result.1 (λ read. sha256 read.bytes.items ≡ id) }
    ensures unchecked { is_bad_bytes result.1 ≡ false }
    ensures turn { IsTurn history_of opening_of sealed_of reach disk_of most_waiting who None state.old state.new result.0 }
    ensures front { IsFront state.new.opening state.new.history }
{
    let before = state.history_length();
    let answer = state.content_unchecked(alloc, who, id);
    (differ(before, state.history_length()), answer)
}

pub(crate) fn head_in<D: Disk>(state: &mut RepoState<D>, name: &BookName) -> Option<Id>
    ensures same { state.new.history ≡ state.old.history }
    ensures opening { state.new.opening ≡ state.old.opening }
    ensures sealed { state.new.sealed ≡ state.old.sealed }
    ensures disk { state.new.disk ≡ state.old.disk }
    ensures reaches { reach state.new ≡ reach state.old }
    ensures head { result ≡ head state.old.history name.now }
    ensures front { IsFront state.new.opening state.new.history }
{
    // It keeps its rules.
    let _ = state.history_length();
    state.head(name)
}

pub(crate) fn changeset_in<D: Disk>(
    state: &mut RepoState<D>,
    id: Id,
) -> Result<Arc<Commit>, AskFault>
    ensures same { state.new.history ≡ state.old.history }
    ensures opening { state.new.opening ≡ state.old.opening }
    ensures sealed { state.new.sealed ≡ state.old.sealed }
    ensures disk { state.new.disk ≡ state.old.disk }
    ensures reaches { reach state.new ≡ reach state.old }
    ensures ok { IfOk result (λ commit. changeset_of (known state.old.history) id ≡ Some (arc_value commit)) }
    ensures err { IfErr result (λ fault. Answers state.old.opening.header state.old.history (Looks (ChangesetOf id)) (fault_answer fault) nothing) }
    ensures unchecked { is_bad_bytes result ≡ false }
    ensures front { IsFront state.new.opening state.new.history }
{
    // It keeps its rules.
    let _ = state.history_length();
    state.changeset(id)
}

#[tactic(auto, using(crate::proofs::Landings::refused_plan))]
pub(crate) fn plan_in<D: Disk>(
    state: &mut RepoState<D>,
    alloc: Global,
    caller: &BookName,
    name: &BookName,
    draft: Id,
) -> Result<Plan, Refusal>
    ensures same { state.new.history ≡ state.old.history }
    ensures opening { state.new.opening ≡ state.old.opening }
    ensures sealed { state.new.sealed ≡ state.old.sealed }
    ensures disk { state.new.disk ≡ state.old.disk }
    ensures reaches { reach state.new ≡ reach state.old }
    ensures ok { IfOk result (IsPlan state.old.history caller.now name.now draft) }
    ensures err { IfErr result (RefusesLanding state.old.opening.header state.old.history caller.now name.now draft) }
    ensures front { IsFront state.new.opening state.new.history }
    ensures stands { IsSound state.new.opening state.new.history state.new.sealed (reach state.new) state.new.disk }
{
    // It keeps its rules.
    let _ = state.history_length();
    state.plan(alloc, caller, name, draft)
}

fn outcome(exchanged: Exchanged) -> Option<Result<Granted, ChangeFault>>
    ensures same { result ≡ outcome_of exchanged }
    ensures disk { IfSome result (λ granted. is_disk_fault granted ≡ false) }
{
    match exchanged {
        Exchanged::Landed(landed) => Some(Ok(Granted::Landing(landed))),
        Exchanged::HeadMoved { found: _ } => None,
        Exchanged::Refused(refusal) => Some(Err(ChangeFault::Refused(refusal))),
    }
}

// What came of the landing, or none where the bookmark's head isn't the planned one.
#[tactic(auto, using(crate::proofs::Landings::outcome_replies, crate::proofs::Landings::outcome_there, repo_machine::proofs::Judging::replies_memory))]
pub(crate) fn exchange_in<D: Disk>(
    state: &mut RepoState<D>,
    alloc: Global,
    who: u64,
    rebased: Rebased,
) -> (bool, Option<Result<Placed, ChangeFault>>)
    requires { WasPlanned state.old.history rebased }
    ensures reply { MatchOption result.1 (state.new.history ≡ state.old.history) (λ entered. Replies state.old.opening.header state.old.history who (Asks (LandDraft rebased.caller rebased.name rebased.draft rebased.asked)) (placed_answer entered) state.new.history) }
    ensures told { IfSome result.1 (λ entered. Tells entered state.new) }
    ensures there { head state.old.history rebased.name ≡ Some rebased.old → IsSome result.1 }
    ensures turn { IsTurn history_of opening_of sealed_of reach disk_of most_waiting who None state.old state.new result.0 }
    ensures stands { IsSound state.new.opening state.new.history state.new.sealed (reach state.new) state.new.disk }
{
    let before = state.history_length();
    if state.reserve(alloc, &rebased).is_err() {
        return (false, Some(Err(ChangeFault::Refused(Refusal::Memory))));
    }
    let Some(granted) = outcome(state.exchange(who, rebased)) else {
        return (false, None);
    };
    let added = differ(before, state.history_length());
    (added, Some(with_counts(state, granted)))
}
