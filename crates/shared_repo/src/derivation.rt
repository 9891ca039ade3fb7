//! Derivations of manifests: each job is taken under one turn, derived outside of every turn, and
//! settled under another.
ghost use Rattle.std.specs.Prelude.{◌≡◌, ◌≤◌, false, IfOk, IfErr, IfSome};
ghost use Rattle.bookmark_lock.specs.Place.{moved};
ghost use Rattle.history_model.specs.History.{known};
ghost use Rattle.manifest_store.specs.Settling.{IsCollision};
ghost use Rattle.reply_model.specs.After.{After, Answers, Derives, nothing, SeesMore};
ghost use Rattle.repo_state.specs.Manifests.{roots_answer};
ghost use Rattle.repo_calls.specs.Asking.{fault_answer};
ghost use Rattle.repo_state.specs.State.{reach};
ghost use Rattle.shared_repo.specs.Derivation.{IsNextSome, WasDerived};
ghost use Rattle.shared_repo.specs.Front.{IsFront};
ghost use Rattle.shared_repo.specs.Sealed.{IsLater};

use crate::derivation_turns::{Next, next_in, settle_in};
use crate::repo::Repo;
use crate::seat::RepoSeat;
use blob_disk::Disk;
use derive_step::{Done, derive};
use node_table::{Roots, TableFault};
use object_id::Id;
use repo_calls::AskFault;
use repo_machine::{Prepared, Wanted};
use repo_state::{RepoState, settle_fault};
use std::alloc::Global;
use std::sync::Wait;

impl<D: Disk> Repo<D> {
    /// The ids of a changeset's root fsnode, root unode and root deleted node. What its chain lacks is derived
    /// first, a changeset at a time: taken under one turn, derived outside of every turn, settled
    /// under another. It makes no entry.
    #[tactic(auto, using(crate::proofs::Fronts::after_nothing))]
    pub fn derive_one<R: Wait>(
        &self,
        rt: &R,
        alloc: Global,
        seat: &mut RepoSeat,
        id: Id,
    ) -> Result<Roots, AskFault>
        requires place { seat.old.lock ≡ self.now }
        ensures seat { seat.new ≡ moved seat.old seat.new }
        ensures seals { seat.old.sealed ≤ seat.new.sealed }
        ensures after { After self.now.opening.header seat.old.front seat.old.number (Derives id) (roots_answer result) seat.new.front }
        ensures more { SeesMore seat.old.front seat.old.number seat.new.front }
        ensures front { IsFront self.now.opening seat.new.front }
    {
        self.derive_chain(rt, alloc, seat, id)
    }

    /// The same, answered at what the seat has seen in the end. Each round ends the call, or leaves
    /// one changeset more of the chain settled, by this seat or by another; so the call ends, though
    /// nothing bounds its rounds.
    #[tactic(auto, using(crate::proofs::Fronts::sees_nothing, crate::proofs::Fronts::sees_twice, crate::proofs::Laters::later_none, crate::proofs::Laters::later_then))]
    pub(crate) fn derive_chain<R: Wait>(
        &self,
        rt: &R,
        alloc: Global,
        seat: &mut RepoSeat,
        id: Id,
    ) -> Result<Roots, AskFault>
        requires place { seat.old.lock ≡ self.now }
        ensures seat { seat.new ≡ moved seat.old seat.new }
        ensures seals { seat.old.sealed ≤ seat.new.sealed }
        ensures answer { Answers self.now.opening.header seat.new.front (Derives id) (roots_answer result) nothing }
        ensures more { SeesMore seat.old.front seat.old.number seat.new.front }
        ensures later { IsLater seat.old seat.new }
        ensures front { IsFront self.now.opening seat.new.front }
    {
        for _ in rt.forever() {
            if let Some(answer) = self.derive_next(rt, alloc, seat, id) {
                return answer;
            }
        }
        unreachable!()
    }

    /// Derives what the manifests of a merge's parents lack, of a change that stores one: in its turn what the merge leaves
    /// unresolved is then found where these manifests differ. Whatever is wrong with a parent, the change itself answers.
    #[tactic(auto, using(crate::proofs::Fronts::sees_nothing, crate::proofs::Fronts::sees_twice, crate::proofs::Laters::later_none, crate::proofs::Laters::later_then))]
    pub(crate) fn derive_parents<R: Wait>(
        &self,
        rt: &R,
        alloc: Global,
        seat: &mut RepoSeat,
        prepared: &Prepared,
    )
        requires place { seat.old.lock ≡ self.now }
        ensures seat { seat.new ≡ moved seat.old seat.new }
        ensures seals { seat.old.sealed ≤ seat.new.sealed }
        ensures more { SeesMore seat.old.front seat.old.number seat.new.front }
        ensures later { IsLater seat.old seat.new }
    {
        let Wanted::Unresolved(commit) = prepared.wants() else {
            return;
        };
        for parent in commit.changeset().parents() {
            let _ = self.derive_chain(rt, alloc, seat, *parent);
        }
    }

    // One round: the answer, or none where a job was derived and put in.
    #[tactic(auto, using(crate::proofs::Fronts::sees_twice, crate::proofs::Laters::later_then))]
    fn derive_next<R: Wait>(
        &self,
        rt: &R,
        alloc: Global,
        seat: &mut RepoSeat,
        id: Id,
    ) -> Option<Result<Roots, AskFault>>
        requires place { seat.old.lock ≡ self.now }
        ensures seat { seat.new ≡ moved seat.old seat.new }
        ensures seals { seat.old.sealed ≤ seat.new.sealed }
        ensures answer { IfSome result (λ answer. Answers self.now.opening.header seat.new.front (Derives id) (roots_answer answer) nothing) }
        ensures more { SeesMore seat.old.front seat.old.number seat.new.front }
        ensures later { IsLater seat.old seat.new }
        ensures front { IsFront self.now.opening seat.new.front }
    {
        let job = match self.next(rt, alloc, seat, id) {
            Ok(Next::Job(job)) => job,
            Ok(Next::Roots(roots)) => return Some(Ok(roots)),
            Err(fault) => return Some(Err(fault)),
        };
        // The job has all nodes that are looked for, so nothing but memory is wanting.
        let Ok(done) = derive(alloc, job) else {
            return Some(Err(AskFault::Memory));
        };
        match self.settle(rt, alloc, seat, done) {
            Ok(()) => None,
            Err(fault) => Some(Err(settle_fault(fault))),
        }
    }

    // The turn in which a job is taken, or the roots are read.
    #[tactic(auto, using(crate::proofs::Turning::keeps_none, crate::proofs::Turning::still_turn, crate::proofs::Turning::later_in))]
    fn next<R: Wait>(
        &self,
        rt: &R,
        alloc: Global,
        seat: &mut RepoSeat,
        id: Id,
    ) -> Result<Next, AskFault>
        requires place { seat.old.lock ≡ self.now }
        ensures seat { seat.new ≡ moved seat.old seat.new }
        ensures seals { seat.old.sealed ≤ seat.new.sealed }
        ensures more { SeesMore seat.old.front seat.old.number seat.new.front }
        ensures later { IsLater seat.old seat.new }
        ensures ok { IfOk result (IsNextSome self.now.opening.header seat.new.front id) }
        ensures err { IfErr result (λ fault. Answers self.now.opening.header seat.new.front (Derives id) (fault_answer fault) nothing) }
        ensures front { IsFront self.now.opening seat.new.front }
    {
        self.lock.enter(
            rt,
            &mut seat.inner,
            |state: &mut RepoState<D>| -> (bool, Result<Next, AskFault>)
                ensures same { state.new.history ≡ state.old.history }
                ensures opening { state.new.opening ≡ state.old.opening }
                ensures sealed { state.new.sealed ≡ state.old.sealed }
                ensures disk { state.new.disk ≡ state.old.disk }
                ensures reaches { reach state.new ≡ reach state.old }
                ensures none { result.0 ≡ false }
                ensures ok { IfOk result.1 (IsNextSome state.old.opening.header state.old.history id) }
                ensures err { IfErr result.1 (λ fault. Answers state.old.opening.header state.old.history (Derives id) (fault_answer fault) nothing) }
                ensures front { IsFront state.new.opening state.new.history }
            { (false, next_in(state, alloc, id)) },
        )
    }

    // The turn in which what was derived is put in, without a copy of it and with nothing hashed.
    #[tactic(auto, using(crate::proofs::Derivations::derived_later, crate::proofs::Turning::keeps_none, crate::proofs::Turning::still_turn, crate::proofs::Turning::later_in))]
    fn settle<R: Wait>(
        &self,
        rt: &R,
        alloc: Global,
        seat: &mut RepoSeat,
        done: Done,
    ) -> Result<(), TableFault>
        requires place { seat.old.lock ≡ self.now }
        requires derived { WasDerived seat.old.front done }
        ensures seat { seat.new ≡ moved seat.old seat.new }
        ensures seals { seat.old.sealed ≤ seat.new.sealed }
        ensures more { SeesMore seat.old.front seat.old.number seat.new.front }
        ensures later { IsLater seat.old seat.new }
        ensures err { IfErr result (λ fault. IsCollision (known seat.new.front) fault) }
        ensures front { IsFront self.now.opening seat.new.front }
    {
        self.lock.enter(
            rt,
            &mut seat.inner,
            |state: &mut RepoState<D>| -> (bool, Result<(), TableFault>)
                requires { WasDerived state.old.history done }
                ensures same { state.new.history ≡ state.old.history }
                ensures opening { state.new.opening ≡ state.old.opening }
                ensures sealed { state.new.sealed ≡ state.old.sealed }
                ensures disk { state.new.disk ≡ state.old.disk }
                ensures reaches { reach state.new ≡ reach state.old }
                ensures none { result.0 ≡ false }
                ensures err { IfErr result.1 (λ fault. IsCollision (known state.new.history) fault) }
                ensures front { IsFront state.new.opening state.new.history }
            { (false, settle_in(state, alloc, done)) },
        )
    }
}
