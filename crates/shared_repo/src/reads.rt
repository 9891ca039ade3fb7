//! Reads of a repository that many seats share. A changeset is encoded and its copies are told outside of the turn, and
//! what a read of manifests lacks is derived before its turn.
ghost use Rattle.std.specs.Prelude.{◌≡◌, ◌≤◌, false, Some, IfOk, IfErr, IsTrue, None};
ghost use Rattle.std.specs.Arc.{arc_value};
ghost use Rattle.bookmark_lock.specs.Place.{moved};
ghost use Rattle.bookmark_lock.specs.Turns.{IsTurn};
ghost use Rattle.reply_model.specs.Reply.{HeadOf, SeenHead, ChangesetOf, CopiesOf};
ghost use Rattle.history_model.specs.Bookmark.{head};
ghost use Rattle.history_model.specs.History.{changeset_of, known};
ghost use Rattle.reply_model.specs.After.{After, Answer, Answers, Looks, Replies, Shows, nothing, SeesMore};
ghost use Rattle.repo_calls.specs.Asking.{IsAnswer, fault_answer, is_bad_bytes, question_seen};
ghost use Rattle.repo_state.specs.State.{reach};
ghost use Rattle.shared_repo.specs.Derivation.{AsksManifestOf};
ghost use Rattle.shared_repo.specs.Front.{IsFront, history_of, opening_of, sealed_of, disk_of, most_waiting};

use crate::repo::Repo;
use crate::seat::RepoSeat;
use crate::turns::{TurnRead, changeset_in, head_in};
use blob_disk::Disk;
use bonsai::{Commit, encode};
use object_id::Id;
use repo_calls::{AskFault, Question, Seen};
use repo_machine::copied_paths;
use repo_path::BookName;
use repo_state::RepoState;
use std::alloc::Global;
use std::sync::{Arc, Wait};

impl<D: Disk> Repo<D> {
    /// Answers a read.
    pub fn look<R: Wait>(
        &self,
        rt: &R,
        alloc: Global,
        seat: &mut RepoSeat,
        question: &Question,
    ) -> Result<Seen, AskFault>
        requires place { seat.old.lock ≡ self.now }
        ensures seat { seat.new ≡ moved seat.old seat.new }
        ensures seals { seat.old.sealed ≤ seat.new.sealed }
        ensures after { (answer : Answer) × IsAnswer result answer × After self.now.opening.header seat.old.front seat.old.number (Looks (question_seen question.now)) answer seat.new.front }
        ensures honest { IsTrue self.now.opening.honest → is_bad_bytes result ≡ false }
        ensures front { IsFront self.now.opening seat.new.front }
    {
        match *question {
            Question::Head(_) | Question::Log(_) | Question::Policy(_) => {
                self.look_in_turn(rt, alloc, seat, question)
            }
            Question::Content(id) => self.checked_content(rt, alloc, seat, id),
            Question::Changeset(id) => self.encoded_changeset(rt, alloc, seat, id),
            Question::Copies(id) => self.told_copies(rt, alloc, seat, id),
            Question::Fsnode(id, _)
            | Question::Unode(id, _)
            | Question::History(id, _)
            | Question::PathLog(id, _)
            | Question::Deleted(id, _) => self.look_derived(rt, alloc, seat, id, question),
        }
    }

    // The turn of a read that is answered in it.
    fn look_in_turn<R: Wait, Q: TurnRead<D>>(
        &self,
        rt: &R,
        alloc: Global,
        seat: &mut RepoSeat,
        question: &Q,
    ) -> Result<Seen, AskFault>
        requires place { seat.old.lock ≡ self.now }
        ensures seat { seat.new ≡ moved seat.old seat.new }
        ensures seals { seat.old.sealed ≤ seat.new.sealed }
        ensures after { (answer : Answer) × IsAnswer result answer × After self.now.opening.header seat.old.front seat.old.number (Looks (Q.asked question.now)) answer seat.new.front }
        ensures honest { IsTrue self.now.opening.honest → is_bad_bytes result ≡ false }
        ensures front { IsFront self.now.opening seat.new.front }
    {
        let who = seat.inner.number();
        self.lock.enter(
            rt,
            &mut seat.inner,
            |state: &mut RepoState<D>| -> (bool, Result<Seen, AskFault>)
                ensures reply { (answer : Answer) × IsAnswer result.1 answer × Replies state.old.opening.header state.old.history who (Looks (Q.asked question.entry.now)) answer state.new.history }
                ensures honest { IsTrue state.old.opening.honest → is_bad_bytes result.1 ≡ false }
                ensures turn { IsTurn history_of opening_of sealed_of reach disk_of most_waiting who None state.old state.new result.0 }
                ensures front { IsFront state.new.opening state.new.history }
            { question.look_in(state, alloc, who) },
        )
    }

    // The turn in which a head is read.
    #[tactic(auto, using(crate::proofs::Turning::keeps_none, crate::proofs::Turning::still_turn, crate::proofs::Turning::sees_still, crate::proofs::Fronts::after_nothing))]
    pub(crate) fn head_in_turn<R: Wait>(
        &self,
        rt: &R,
        seat: &mut RepoSeat,
        name: &BookName,
    ) -> Option<Id>
        requires place { seat.old.lock ≡ self.now }
        ensures seat { seat.new ≡ moved seat.old seat.new }
        ensures seals { seat.old.sealed ≤ seat.new.sealed }
        ensures after { After self.now.opening.header seat.old.front seat.old.number (Looks (HeadOf name.now)) (Shows (SeenHead result)) seat.new.front }
        ensures front { IsFront self.now.opening seat.new.front }
    {
        self.lock.enter(
            rt,
            &mut seat.inner,
            |state: &mut RepoState<D>| -> (bool, Option<Id>)
                ensures same { state.new.history ≡ state.old.history }
                ensures opening { state.new.opening ≡ state.old.opening }
                ensures sealed { state.new.sealed ≡ state.old.sealed }
                ensures disk { state.new.disk ≡ state.old.disk }
                ensures reaches { reach state.new ≡ reach state.old }
                ensures none { result.0 ≡ false }
                ensures head { result.1 ≡ head state.old.history name.entry.now }
                ensures front { IsFront state.new.opening state.new.history }
            { (false, head_in(state, name)) },
        )
    }

    // A read of manifests, in a turn in which nothing of the changeset's chain is lacking.
    #[tactic(auto, using(crate::proofs::Derivations::derives_fine, crate::proofs::Derivations::reads_after))]
    fn look_derived<R: Wait>(
        &self,
        rt: &R,
        alloc: Global,
        seat: &mut RepoSeat,
        id: Id,
        question: &Question,
    ) -> Result<Seen, AskFault>
        requires place { seat.old.lock ≡ self.now }
        requires manifest { AsksManifestOf id (question_seen question.now) }
        ensures seat { seat.new ≡ moved seat.old seat.new }
        ensures seals { seat.old.sealed ≤ seat.new.sealed }
        ensures after { (answer : Answer) × IsAnswer result answer × After self.now.opening.header seat.old.front seat.old.number (Looks (question_seen question.now)) answer seat.new.front }
        ensures honest { IsTrue self.now.opening.honest → is_bad_bytes result ≡ false }
        ensures front { IsFront self.now.opening seat.new.front }
    {
        if let Err(fault) = self.derive_chain(rt, alloc, seat, id) {
            return Err(fault);
        }
        self.look_in_turn(rt, alloc, seat, question)
    }

    // The encoding of a changeset, which is made outside of the turn.
    #[tactic(auto, using(crate::proofs::Fronts::after_nothing))]
    fn encoded_changeset<R: Wait>(
        &self,
        rt: &R,
        alloc: Global,
        seat: &mut RepoSeat,
        id: Id,
    ) -> Result<Seen, AskFault>
        requires place { seat.old.lock ≡ self.now }
        ensures seat { seat.new ≡ moved seat.old seat.new }
        ensures seals { seat.old.sealed ≤ seat.new.sealed }
        ensures after { (answer : Answer) × IsAnswer result answer × After self.now.opening.header seat.old.front seat.old.number (Looks (ChangesetOf id)) answer seat.new.front }
        ensures honest { IsTrue self.now.opening.honest → is_bad_bytes result ≡ false }
        ensures front { IsFront self.now.opening seat.new.front }
    {
        let commit = match self.shared_changeset(rt, seat, id) {
            Ok(commit) => commit,
            Err(fault) => return Err(fault),
        };
        match encode(alloc, commit.changeset()) {
            Ok(bytes) => Ok(Seen::Bytes(bytes)),
            Err(_) => Err(AskFault::Memory),
        }
    }

    // What a changeset sets as copies, which is told outside of the turn.
    #[tactic(auto, using(crate::proofs::Fronts::after_nothing))]
    fn told_copies<R: Wait>(
        &self,
        rt: &R,
        alloc: Global,
        seat: &mut RepoSeat,
        id: Id,
    ) -> Result<Seen, AskFault>
        requires place { seat.old.lock ≡ self.now }
        ensures seat { seat.new ≡ moved seat.old seat.new }
        ensures seals { seat.old.sealed ≤ seat.new.sealed }
        ensures after { (answer : Answer) × IsAnswer result answer × After self.now.opening.header seat.old.front seat.old.number (Looks (CopiesOf id)) answer seat.new.front }
        ensures honest { IsTrue self.now.opening.honest → is_bad_bytes result ≡ false }
        ensures front { IsFront self.now.opening seat.new.front }
    {
        let commit = match self.shared_changeset(rt, seat, id) {
            Ok(commit) => commit,
            Err(fault) => return Err(fault),
        };
        match copied_paths(alloc, commit.changeset()) {
            Ok(copies) => Ok(Seen::Copies(copies)),
            Err(_) => Err(AskFault::Memory),
        }
    }

    // The turn of a changeset's read, which hands the changeset out.
    #[tactic(auto, using(crate::proofs::Turning::keeps_none, crate::proofs::Turning::still_turn))]
    fn shared_changeset<R: Wait>(
        &self,
        rt: &R,
        seat: &mut RepoSeat,
        id: Id,
    ) -> Result<Arc<Commit>, AskFault>
        requires place { seat.old.lock ≡ self.now }
        ensures seat { seat.new ≡ moved seat.old seat.new }
        ensures seals { seat.old.sealed ≤ seat.new.sealed }
        ensures more { SeesMore seat.old.front seat.old.number seat.new.front }
        ensures ok { IfOk result (λ commit. changeset_of (known seat.new.front) id ≡ Some (arc_value commit)) }
        ensures err { IfErr result (λ fault. Answers self.now.opening.header seat.new.front (Looks (ChangesetOf id)) (fault_answer fault) nothing) }
        ensures unchecked { is_bad_bytes result ≡ false }
        ensures front { IsFront self.now.opening seat.new.front }
    {
        self.lock.enter(
            rt,
            &mut seat.inner,
            |state: &mut RepoState<D>| -> (bool, Result<Arc<Commit>, AskFault>)
                ensures same { state.new.history ≡ state.old.history }
                ensures opening { state.new.opening ≡ state.old.opening }
                ensures sealed { state.new.sealed ≡ state.old.sealed }
                ensures disk { state.new.disk ≡ state.old.disk }
                ensures reaches { reach state.new ≡ reach state.old }
                ensures none { result.0 ≡ false }
                ensures ok { IfOk result.1 (λ commit. changeset_of (known state.old.history) id ≡ Some (arc_value commit)) }
                ensures err { IfErr result.1 (λ fault. Answers state.old.opening.header state.old.history (Looks (ChangesetOf id)) (fault_answer fault) nothing) }
                ensures unchecked { is_bad_bytes result.1 ≡ false }
                ensures front { IsFront state.new.opening state.new.history }
            { (false, changeset_in(state, id)) },
        )
    }
}
