//! A repository that many seats share: its seats, from the first to the last.
ghost use Rattle.std.specs.Prelude.{◌≡◌, ◌+◌, ◌<◌, ◌≤◌, ◌^◌, [], All, IfOk, IfErr};
ghost use Rattle.disk_model.specs.Calls.{Kept};
ghost use Rattle.history_model.specs.History.{Entry, entries_by};
ghost use Rattle.bookmark_lock.specs.Place.{lead_place, new_place, joined_place, told_at};
ghost use Rattle.bookmark_lock.specs.Fronts.{IsJoined};
ghost use Rattle.bookmark_lock.specs.Lasting.{AreLast};
ghost use Rattle.bookmark_lock.specs.Leaving.{Lasts};
ghost use Rattle.bookmark_lock.specs.Turns.{turn_of};
ghost use Rattle.repo_machine.specs.Seats.{cleared};
ghost use Rattle.repo_state.specs.State.{IsAllSealed, reach};
ghost use Rattle.shared_repo.specs.Front.{IsFront, IsGivenBack, history_of, sealed_of, disk_of};

use crate::seat::RepoSeat;
use blob_disk::Disk;
use bookmark_lock::TurnLock;
use repo_state::RepoState;
use std::alloc::Global;
use std::marker::Model;

/// A repository in a file, which seats take turns with. Contracts see which it is, and what it was
/// opened with.
#[derive(Drop)]
pub struct Repo<D: Disk> {
    pub(crate) lock: TurnLock<RepoState<D>>,
}

impl<D: Disk> Model for Repo<D> {
    ghost use Rattle.bookmark_lock.specs.Place.{Site};

    ghost Value = { Site };

    ghost view = { λ s. s.lock };
}

impl<D: Disk> Repo<D> {
    /// The repository, every entry's number now 0, and its first seat, which leads the others. All is
    /// sealed, unless the disk failed. Where memory is refused the state is given back, with the numbers 0.
    #[tactic(auto, using(crate::proofs::Cleared::cleared_zero))]
    pub fn new(alloc: Global, state: RepoState<D>) -> Result<(Repo<D>, RepoSeat), RepoState<D>>
        requires sealed { IsAllSealed state.history state.sealed }
        ensures opening { IfOk result (λ made. made.0.opening ≡ state.opening) }
        ensures lead { IfOk result (λ made. made.1 ≡ lead_place made.0 (cleared state.history) state.sealed (reach state) state.disk) }
        ensures front { IfOk result (λ made. IsFront made.0.opening made.1.front) }
        ensures back { IfErr result (IsGivenBack state) }
    {
        let mut state = state;
        state.clear_seats();
        match TurnLock::new(alloc, state) {
            Ok((lock, inner)) => Ok((Repo { lock }, RepoSeat { inner })),
            Err(state) => Err(state),
        }
    }

    /// A new seat, which has seen what the lead has. It takes no memory.
    pub fn split(&self, lead: &mut RepoSeat) -> RepoSeat
        requires place { lead.old.lock ≡ self.now }
        requires leads { lead.old.number ≡ 0 }
        requires room { lead.old.split < 2 ^ 63 }
        ensures lead { lead.new ≡ record lead.old { split = lead.old.split + 1; out = lead.old.out + 1 } }
        ensures seat { result ≡ new_place lead.old }
        ensures above { All (λ (e : Entry). e.who < result.number) result.front }
        ensures unused { entries_by result.number result.front ≡ [] }
        ensures front { IsFront self.now.opening result.front }
    {
        let inner = self.lock.split(&mut lead.inner);
        RepoSeat { inner }
    }

    /// The lead takes the longer of the two fronts, which the other begins.
    pub fn join(&self, lead: &mut RepoSeat, other: RepoSeat)
        requires place { lead.old.lock ≡ self.now }
        requires other { other.lock ≡ self.now }
        requires leads { lead.old.number ≡ 0 }
        ensures lead { lead.new ≡ joined_place lead.old other }
        ensures joined { IsJoined lead.old other lead.new.front }
        ensures front { IsFront self.now.opening lead.new.front }
    {
        let RepoSeat { inner } = other;
        self.lock.join(&mut lead.inner, inner);
    }

    /// The state, once the lead has joined every seat that it split off. Nothing waits to be sealed, unless the disk failed.
    #[tactic(auto, using(bookmark_lock::proofs::Lasts::few_last))]
    pub fn close(self, lead: RepoSeat) -> RepoState<D>
        requires place { lead.lock ≡ self }
        requires leads { lead.number ≡ 0 }
        requires alone { lead.out ≡ 0 }
        ensures history { result.history ≡ lead.front }
        ensures opening { result.opening ≡ self.opening }
        ensures recorded { All (λ (e : Entry). e.who ≤ lead.split) result.history }
        ensures sealed { IsAllSealed result.history result.sealed }

        // What a seat was told is so still: what it has seen sealed, and what it was told of the disk.
        ensures told { lead.sealed ≤ result.sealed }
        ensures lasts { Kept lead.disk result.disk }
        // And a crash since left no image but such as are told.
        ensures leaves { Lasts self.opening.header (told_at lead) (turn_of history_of sealed_of reach disk_of result) }
        // Also once it is down, what waits to be sealed is of each seat the last.
        ensures last { AreLast result.history result.sealed }
        ensures front { IsFront result.opening result.history }
    {
        let Repo { lock } = self;
        let RepoSeat { inner } = lead;
        lock.close(inner)
    }
}
