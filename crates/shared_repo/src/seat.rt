//! What a thread calls a shared repository with.
ghost use Rattle.std.specs.Prelude.{◌≡◌};

use std::marker::Model;

/// A seat of a shared repository. Contracts see its place. What it has seen is a legal history, and each of its entries is sealed.
#[derive(Drop)]
pub struct RepoSeat {
    pub(crate) inner: bookmark_lock::Seat,
}

impl Model for RepoSeat {
    ghost use Rattle.std.specs.Prelude.{◌≡◌, None};
    ghost use Rattle.bookmark_lock.specs.Place.{Place};
    ghost use Rattle.shared_repo.specs.Front.{IsFront};

    ghost Value = { Place };

    ghost view = { λ s. s.inner };

    ghost invariant = { λ s. IsFront s.inner.lock.opening s.inner.front × (s.inner.unsealed ≡ None) };
}

impl RepoSeat {
    /// Its number. The lead's is 0.
    pub fn number(&self) -> u64
        ensures { result ≡ self.now.number }
    {
        self.inner.number()
    }

    /// How many stored entries it has seen sealed.
    pub fn sealed(&self) -> u64
        ensures { result ≡ self.now.sealed }
    {
        self.inner.sealed()
    }

    /// How many of the seats that it split off are not joined.
    pub fn out(&self) -> u64
        ensures { result ≡ self.now.out }
    {
        self.inner.out()
    }
}
