//! A seat at which manifests are derived.
ghost use Rattle.std.specs.Prelude.{◌≡◌};
ghost use Rattle.history_model.specs.History.{entries_by};
ghost use Rattle.bookmark_lock.specs.Place.{Place, home_of};
ghost use Rattle.reply_model.specs.After.{After, Answer, Derives as Asked};

use blob_disk::Disk;
use derive_pool::Derives;
use object_id::Id;
use repo_calls::AskFault;
use shared_repo::{Repo, RepoSeat};
use std::alloc::Global;
use std::marker::Model;
use std::sync::Wait;

/// A seat of a shared repository, to derive at. Contracts see its place.
#[derive(Drop)]
pub(crate) struct DerivingSeat<'a, R: Wait, D: Disk> {
    rt: &'a R,
    repo: &'a Repo<D>,
    seat: RepoSeat,
}

impl<'a, R: Wait, D: Disk> Model for DerivingSeat<'a, R, D> {
    ghost use Rattle.std.specs.Prelude.{◌≡◌};
    ghost use Rattle.bookmark_lock.specs.Place.{Place};

    ghost Value = { Place };

    ghost view = { λ s. s.seat };

    ghost invariant = { λ s. s.seat.lock ≡ s.repo.now };
}

impl<'a, R: Wait, D: Disk> DerivingSeat<'a, R, D> {
    /// A seat of this repository, which waits for its turns by `rt`.
    pub(crate) fn new(rt: &'a R, repo: &'a Repo<D>, seat: RepoSeat) -> Self
        requires { seat.lock ≡ repo.now }
        ensures { result ≡ seat }
    {
        DerivingSeat { rt, repo, seat }
    }

    /// The seat.
    pub(crate) fn into_seat(self) -> RepoSeat
        ensures { result ≡ self.entry }
    {
        self.seat
    }
}

impl<'a, R: Wait, D: Disk> Derives for DerivingSeat<'a, R, D> {
    ghost Home = { Place };

    ghost home = { λ s. home_of s };

    ghost own = { λ s. entries_by s.number s.front };

    ghost derives = { λ s id t. (answer : Answer) × After s.lock.opening.header s.front s.number (Asked id) answer t.front };

    fn derive(&mut self, alloc: Global, id: Id) -> Result<(), AskFault> {
        self.repo.derive_one(self.rt, alloc, &mut self.seat, id)?;
        Ok(())
    }
}
