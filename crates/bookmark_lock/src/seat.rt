//! What a thread takes its turns with.
ghost use Rattle.std.specs.Prelude.{◌≡◌};
ghost use Rattle.bookmark_lock.specs.Seated.{IsIdle, IsSettled, view_in};

use crate::view::View;
use atomic_table::Badge;
use std::marker::Model;

pub(crate) type Inner<T> = atomic_table::Seat<Option<T>, View>;

/// A seat of a lock. Contracts see the lock that it is for and what it knows.
#[derive(Drop)]
pub struct Seat {
    pub(crate) badge: Badge<View>,
    pub(crate) number: u64,
    pub(crate) split: u64,
    pub(crate) out: u64,
    pub(crate) sealed: u64,
}

impl Model for Seat {
    ghost use Rattle.std.specs.Prelude.{◌≡◌, ◌≤◌};
    ghost use Rattle.bookmark_lock.specs.Place.{Place, place_of};
    ghost use Rattle.bookmark_lock.specs.Seated.{IsSettled, view_in};

    ghost Value = { Place };

    ghost view = { λ s. place_of s.badge.table_id (view_in s.badge.views).member.post };

    ghost invariant = { λ s. IsSettled s.badge.views × (s.number ≡ (view_in s.badge.views).member.post.number) × (s.split ≡ (view_in s.badge.views).member.post.split) × (s.out ≡ (view_in s.badge.views).member.post.out) × (s.out ≤ s.split) × (s.sealed ≡ (view_in s.badge.views).member.post.sealed) };
}

impl Seat {
    /// Its number. The lead's is 0.
    pub fn number(&self) -> u64
        ensures { result ≡ self.now.number }
    {
        self.number
    }

    /// How many stored entries it has seen sealed.
    pub fn sealed(&self) -> u64
        ensures { result ≡ self.now.sealed }
    {
        self.sealed
    }

    /// How many of the seats that it split off are not joined.
    pub fn out(&self) -> u64
        ensures { result ≡ self.now.out }
    {
        self.out
    }
}

// The seat as a table whose slots hold values of this type steps with it.
pub(crate) fn seated<T>(badge: Badge<View>) -> Inner<T>
    requires { IsSettled badge.views }
    ensures place { result.table_id ≡ badge.table_id }
    ensures idle { IsIdle result.me }
    ensures view { result.me.0 ≡ view_in badge.views }
{
    badge.into_seat()
}
