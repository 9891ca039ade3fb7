//! How many calls may work at once.
ghost use Rattle.std.specs.Prelude.{◌≡◌};

use std::sync::{Condvar, Mutex, Wait};

/// How many changes work at once. Landings at one head send each other back to their plans, so that many at once would only
/// come sooner to their last attempt; and a seal takes all that wait, of which this many make two syncs cheap.
const CHANGES: u32 = 64;

/// How many reads work at once. Each makes its answer in memory, at most one content of 64 MiB.
const LOOKS: u32 = 16;

/// Permits for so many calls, one a call.
#[derive(Drop)]
pub(crate) struct Permits {
    free: Mutex<u32>,
    freed: Condvar,
}

impl Permits {
    // So many, all of them free.
    fn new(count: u32) -> Self {
        Permits {
            free: Mutex::new(count),
            freed: Condvar::new(),
        }
    }

    /// Takes one, and waits for it while none is free. Who has one waits for no other, so that each comes back.
    pub(crate) fn take<R: Wait>(&self, rt: &R) {
        let mut free = self
            .freed
            .wait_while(rt, self.free.lock(rt), |free| *free == 0);
        *free -= 1;
    }

    /// Gives one back that was taken.
    pub(crate) fn give_back<R: Wait>(&self, rt: &R) {
        let mut free = self.free.lock(rt);
        *free = free.saturating_add(1);
        drop(free);
        self.freed.notify_one();
    }
}

/// The permits of a server's calls: of two kinds, so that changes which wait for a sync that hangs keep no reader out.
#[derive(Drop)]
pub(crate) struct Bounds {
    pub(crate) changes: Permits,
    pub(crate) looks: Permits,
}

impl Bounds {
    /// All of them free.
    pub(crate) fn new() -> Self {
        Bounds {
            changes: Permits::new(CHANGES),
            looks: Permits::new(LOOKS),
        }
    }
}
