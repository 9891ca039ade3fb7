//! Gates at which another seat moves `main`, or sets a policy.
use crate::steps::move_from;
use object_id::Id;
use ports::Gate;
use repo_calls::{Ask, Seat};
use repo_path::BookName;
use std::alloc::Global;
use std::sync::atomic::{AtomicU64, Ordering};
use std::sync::{Mutex, Wait};

/// A seat that moves `main` from one id to another, and then back.
#[derive(Drop)]
pub(crate) struct Walker<S: Seat + Drop> {
    seat: S,
    main: BookName,
    from: Id,
    to: Id,
}

impl<S: Seat + Drop> Walker<S> {
    pub(crate) fn new(seat: S, main: BookName, from: Id, to: Id) -> Self {
        Walker {
            seat,
            main,
            from,
            to,
        }
    }

    fn step(&mut self, alloc: Global) {
        let (from, to) = (self.from, self.to);
        if move_from(alloc, &mut self.seat, &self.main, Some(from), Some(to)).is_ok() {
            self.from = to;
            self.to = from;
        }
    }
}

/// A walker goes so many steps each time that a landing comes here.
#[derive(Drop)]
pub(crate) struct Moves<'a, R: Wait, S: Seat + Drop> {
    rt: &'a R,
    alloc: Global,
    walker: Mutex<Walker<S>>,
    steps: u64,
    came: AtomicU64,
}

impl<'a, R: Wait, S: Seat + Drop> Moves<'a, R, S> {
    pub(crate) fn new(rt: &'a R, alloc: Global, walker: Walker<S>, steps: u64) -> Self {
        Moves {
            rt,
            alloc,
            walker: Mutex::new(walker),
            steps,
            came: AtomicU64::new(0),
        }
    }

    /// How often landings came here.
    pub(crate) fn came(&self) -> u64 {
        self.came.load(Ordering::SeqCst)
    }
}

impl<'a, R: Wait, S: Seat + Drop> Gate for Moves<'a, R, S> {
    fn between(&self, _who: u64, _attempt: u32) {
        self.came.fetch_add(1, Ordering::SeqCst);
        let mut walker = self.walker.lock(self.rt);
        for _ in 0..self.steps {
            walker.step(self.alloc);
        }
    }
}

/// A seat sets a policy each time that a landing comes here.
#[derive(Drop)]
pub(crate) struct Rules<'a, R: Wait, S: Seat + Drop> {
    rt: &'a R,
    alloc: Global,
    seat: Mutex<S>,
    caller: BookName,
    text: &'a [u8],
}

impl<'a, R: Wait, S: Seat + Drop> Rules<'a, R, S> {
    pub(crate) fn new(rt: &'a R, alloc: Global, seat: S, caller: BookName, text: &'a [u8]) -> Self {
        Rules {
            rt,
            alloc,
            seat: Mutex::new(seat),
            caller,
            text,
        }
    }
}

impl<'a, R: Wait, S: Seat + Drop> Gate for Rules<'a, R, S> {
    fn between(&self, _who: u64, _attempt: u32) {
        let mut seat = self.seat.lock(self.rt);
        let ask = Ask::SetPolicy {
            caller: &self.caller,
            text: self.text,
        };
        let _set = seat.change(self.alloc, &ask);
    }
}
