//! A seat with the repository that it is for.
ghost use Rattle.std.specs.Prelude.{◌≡◌};
ghost use Rattle.bookmark_lock.specs.Place.{Place, home_of};
ghost use Rattle.repo_calls.proofs.Sealing.{lawful, widens};
ghost use Rattle.repo_calls.specs.Replying.{Honestly};
ghost use Rattle.repo_calls.specs.Sealing.{SealedAfter};

use crate::repo::Repo;
use crate::seat::RepoSeat;
use blob_disk::Disk;
use ports::Gate;
use repo_calls::{Ask, AskFault, ChangeFault, Granted, Question, Seat, Seen};
use stacked_calls::{StackFault, StackSeat};
use std::alloc::Global;
use std::marker::Model;
use std::sync::Wait;

/// A seat of a shared repository, to be served. Contracts see its place.
#[derive(Drop)]
pub struct Served<'a, R: Wait, D: Disk, G: Gate> {
    rt: &'a R,
    repo: &'a Repo<D>,
    seat: RepoSeat,
    gate: &'a G,
}

impl<'a, R: Wait, D: Disk, G: Gate> Model for Served<'a, R, D, G> {
    ghost use Rattle.std.specs.Prelude.{◌≡◌};
    ghost use Rattle.bookmark_lock.specs.Place.{Place};

    ghost Value = { Place };

    ghost view = { λ s. s.seat };

    ghost invariant = { λ s. s.seat.lock ≡ s.repo.now };
}

impl<'a, R: Wait, D: Disk, G: Gate> Served<'a, R, D, G> {
    /// A seat of this repository, which waits for its turns by `rt`, and whose landings pass `gate`.
    pub fn new(rt: &'a R, repo: &'a Repo<D>, seat: RepoSeat, gate: &'a G) -> Self
        requires { seat.lock ≡ repo.now }
        ensures { result ≡ seat }
    {
        Served {
            rt,
            repo,
            seat,
            gate,
        }
    }

    /// The seat.
    pub fn into_seat(self) -> RepoSeat
        ensures { result ≡ self.entry }
    {
        self.seat
    }
}

/// Each call is one turn, but for landings and reads of manifests.
impl<'a, R: Wait, D: Disk, G: Gate> Seat for Served<'a, R, D, G> {
    ghost header = { λ s. s.lock.opening.header };

    ghost front = { λ s. s.front };

    ghost number = { λ s. s.number };

    ghost sealed = { λ s. s.sealed };

    ghost Home = { Place };

    ghost home = { λ s. home_of s };

    ghost replies = { λ place n. Honestly place.lock.opening.honest (SealedAfter n) };

    fn sealed(&self) -> u64 {
        self.seat.sealed()
    }

    #[tactic(auto, using(repo_calls::proofs::Sealing::change_sealed))]
    fn change(&mut self, alloc: Global, ask: &Ask) -> Result<Granted, ChangeFault> {
        self.repo
            .change(self.rt, alloc, &mut self.seat, ask, self.gate)
    }

    #[tactic(auto, using(repo_calls::proofs::Sealing::change_sealed))]
    fn put_content(&mut self, alloc: Global, bytes: Vec<u8>) -> Result<Granted, ChangeFault> {
        self.repo.put_owned(self.rt, alloc, &mut self.seat, bytes)
    }

    #[tactic(auto, using(repo_calls::proofs::Sealing::look_sealed))]
    fn look(&mut self, alloc: Global, question: &Question) -> Result<Seen, AskFault> {
        self.repo.look(self.rt, alloc, &mut self.seat, question)
    }

    ghost lawful = { λ place n. lawful place.lock.opening.honest n };

    ghost widens = { λ place m n. widens place.lock.opening.honest m n };
}

/// Each change of a list is sealed by itself.
impl<'a, R: Wait, D: Disk, G: Gate> StackSeat for Served<'a, R, D, G> {
    // None waits for the seal of another one.
    ghost enters = { λ _ _ _ _ _ _. ⊥ };

    fn change_all(&mut self, alloc: Global, asks: &[Ask]) -> Result<Granted, StackFault> {
        let Some((last, earlier)) = asks.split_last() else {
            unreachable!()
        };
        let mut at = 0;
        for ask in earlier {
            if let Err(fault) = self.change(alloc, ask) {
                return Err(StackFault { at, fault });
            }
            at += 1;
        }
        match self.change(alloc, last) {
            Ok(granted) => Ok(granted),
            Err(fault) => Err(StackFault { at, fault }),
        }
    }
}
