//! What the time is.
ghost use Rattle.std.specs.Prelude.{◌≡◌, ℕ};

/// Tells the time.
pub trait Clock {
    /// Which times it may tell, in seconds since 1970-01-01 00:00 UTC.
    ghost tells: { Self → ℕ → Type 0 };

    /// The time, in seconds since 1970-01-01 00:00 UTC.
    fn now(&self) -> u64
        ensures { tells self.now result };
}

/// A clock that stands at one moment, and tells no other.
#[derive(Clone, Copy, Debug)]
pub struct FixedClock {
    /// In seconds since 1970-01-01 00:00 UTC.
    pub moment: u64,
}

impl Clock for FixedClock {
    ghost tells = { λ clock moment. moment ≡ clock.moment };

    fn now(&self) -> u64 {
        self.moment
    }
}
