//! Whether the system lets so many threads go at once.
use std::sync::{Condvar, Mutex, Wait};
use std::thread;
use std::thread::Threads;

// What threads wait at until all of them are there.
#[derive(Drop)]
struct Latch {
    open: Mutex<bool>,
    opened: Condvar,
}

impl Latch {
    fn new() -> Self {
        Latch {
            open: Mutex::new(false),
            opened: Condvar::new(),
        }
    }

    fn wait<R: Wait>(&self, rt: &R) {
        let _open = self
            .opened
            .wait_while(rt, self.open.lock(rt), |open| !*open);
    }

    fn open<R: Wait>(&self, rt: &R) {
        *self.open.lock(rt) = true;
        self.opened.notify_all();
    }
}

/// How many of so many threads could be started beside one another. All of them have ended when this returns.
pub(crate) fn started_at_once<R: Threads + Wait + Sync>(rt: &R, wanted: u32) -> u32 {
    let latch = Latch::new();
    let shared = &latch;
    thread::scope(thread::scope_env(), rt, |scope| {
        let mut count: u32 = 0;
        for _ in 0..wanted {
            if scope.spawn(move || shared.wait(rt)).is_err() {
                break;
            }
            count = count.saturating_add(1);
        }
        shared.open(rt);
        count
    })
}
