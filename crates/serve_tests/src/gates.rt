//! A gate that holds a landing until another one is answered.
use ports::Gate;
use std::sync::atomic::{AtomicU64, Ordering};
use std::thread;

const MOST_TURNS: u64 = 1_000_000;

/// The first landing that comes here waits until more than so many bytes are sent, for so many turns at most.
#[derive(Drop)]
pub(crate) struct FirstWaits<'a> {
    sent: &'a AtomicU64,
    bytes: u64,
    came: AtomicU64,
    gave_up: AtomicU64,
}

impl<'a> FirstWaits<'a> {
    pub(crate) fn new(sent: &'a AtomicU64, bytes: u64) -> Self {
        FirstWaits {
            sent,
            bytes,
            came: AtomicU64::new(0),
            gave_up: AtomicU64::new(0),
        }
    }

    /// How often landings came here by now.
    pub(crate) fn came(&self) -> &AtomicU64 {
        &self.came
    }

    /// How often landings came here, and how many gave up waiting.
    pub(crate) fn told(&self) -> (u64, u64) {
        (
            self.came.load(Ordering::SeqCst),
            self.gave_up.load(Ordering::SeqCst),
        )
    }
}

impl<'a> Gate for FirstWaits<'a> {
    fn between(&self, _who: u64, _attempt: u32) {
        if self.came.fetch_add(1, Ordering::SeqCst) > 0 {
            return;
        }
        for _ in 0..MOST_TURNS {
            if self.sent.load(Ordering::SeqCst) > self.bytes {
                return;
            }
            thread::yield_now();
        }
        self.gave_up.fetch_add(1, Ordering::SeqCst);
    }
}
