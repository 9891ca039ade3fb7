//! A clock that counts its readings.
use ports::Clock;
use std::sync::atomic::{AtomicU64, Ordering};

/// Tells one second more at each reading, 1,000 at the first.
#[derive(Drop)]
pub(crate) struct Ticking {
    next: AtomicU64,
}

impl Ticking {
    pub(crate) fn new() -> Ticking {
        Ticking {
            next: AtomicU64::new(1_000),
        }
    }
}

impl Clock for Ticking {
    ghost tells = { λ _ _. Unit {0} };

    fn now(&self) -> u64 {
        self.next.fetch_add(1, Ordering::SeqCst)
    }
}
