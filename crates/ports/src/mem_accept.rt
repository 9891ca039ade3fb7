//! An accept over memory.
ghost use Rattle.std.specs.Prelude.{◌≡◌, ◌≤◌, ◌-◌, ◌^◌, ◌↔◌, ◌||◌, ◌&&◌, Ok, None, Some, false, not, IsTrue, IsErr, is_err, IfOk, slice_get, drop, if◌then◌else◌};
ghost use Rattle.ports.specs.Accepts.{is_end, is_link};
ghost use Rattle.ports.specs.Faults.{Counts};
ghost use Rattle.ports.specs.Memory.{fails_at, raised};

use crate::accept::Accept;
use crate::failed::Failed;
use std::collections::VecDeque;
use std::marker::Model;

/// An accept over links in memory, which tells them and gives them in order. The calls of the list
/// `failing` fail, counted from 0, but none after it has answered that no more will come.
#[derive(Drop)]
pub struct MemAccept<L> {
    links: VecDeque<L>,
    failing: Vec<u64>,
    calls: u64,
    faults: u64,
    given: u64,
    over: bool,
}

impl<L> Model for MemAccept<L> {
    ghost use Rattle.std.specs.Prelude.{◌≡◌, IsTrue, length};
    ghost use Rattle.ports.specs.Accepts.{Queue};

    ghost Value = { Queue L };

    ghost view = { λ a. record { links = a.links.items; failing = a.failing.items; calls = a.calls; faults = a.faults; given = a.given; over = a.over } };

    ghost invariant = { λ a. IsTrue a.over → length a.links.items ≡ 0 };
}

impl<L> MemAccept<L> {
    /// An accept that gives these links, the first one first.
    pub fn new(links: Vec<L>, failing: Vec<u64>) -> Self
        ensures { result ≡ record { links = links.items; failing = failing.items; calls = 0; faults = 0; given = 0; over = false } }
    {
        MemAccept {
            links: VecDeque::from(links),
            failing,
            calls: 0,
            faults: 0,
            given: 0,
            over: false,
        }
    }
}

impl<L: Drop> Accept<L> for MemAccept<L> {
    ghost faults = { λ a. a.faults };

    ghost given = { λ a. a.given };

    ghost over = { λ a. a.over };

    ghost next_link = { λ a. Some (slice_get a.links 0) };

    fn next(&mut self) -> Result<Option<L>, Failed>
        ensures given { self.new.given ≡ (if is_link result then raised self.old.given else self.old.given) }
        ensures most { self.new.given ≤ 2 ^ 64 - 1 }
        ensures over { self.new.over ≡ (self.old.over || is_end result) }
        ensures again { IsTrue self.old.over → result ≡ Ok None }
        ensures faults { Counts self.old.faults self.new.faults (is_err result) }
        ensures quiet { is_err result ≡ false → self.new.faults ≡ self.old.faults }
        ensures fails { IsErr result ↔ IsTrue (fails_at self.old.failing self.old.calls && not self.old.over) }
        ensures link { IfOk result (λ link. link ≡ slice_get self.old.links 0) }
        ensures links { self.new.links ≡ (if is_link result then drop 1 self.old.links else self.old.links) }
        ensures calls { (self.new.calls ≡ raised self.old.calls) × (self.new.faults ≡ (if is_err result then raised self.old.faults else self.old.faults)) }
        ensures same { self.new.failing ≡ self.old.failing }
    {
        let call = self.calls;
        self.calls = call.saturating_add(1);
        if !self.over && self.failing.contains(&call) {
            self.faults = self.faults.saturating_add(1);
            return Err(Failed);
        }
        let next = self.links.pop_front();
        match next {
            Some(_) => self.given = self.given.saturating_add(1),
            None => self.over = true,
        }
        Ok(next)
    }
}
