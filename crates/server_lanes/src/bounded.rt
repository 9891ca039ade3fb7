//! A seat of which few calls work at once with those of others.
ghost use Rattle.std.specs.Prelude.{◌≡◌};

use crate::permits::Bounds;
use repo_calls::{Ask, AskFault, ChangeFault, Granted, Question, Seat, Seen};
use stacked_calls::{StackFault, StackSeat};
use std::alloc::Global;
use std::marker::Model;
use std::sync::Wait;

/// A seat each call of which takes a permit, and gives it back before it answers: one for a change or a list of changes, or one for a read. Nothing is
/// written to a connection meanwhile, so that no permit waits for a client. Contracts see the seat.
#[derive(Drop)]
pub(crate) struct Bounded<'a, R: Wait, T> {
    rt: &'a R,
    bounds: &'a Bounds,
    seat: T,
}

impl<'a, R: Wait, T> Model for Bounded<'a, R, T> {
    ghost Value = { T };

    ghost coded = { T.code };

    ghost view = { λ b. b.seat };
}

impl<'a, R: Wait, T> Bounded<'a, R, T> {
    /// This seat, whose calls wait for permits of these by `rt`.
    pub(crate) fn new(rt: &'a R, bounds: &'a Bounds, seat: T) -> Self
        ensures { result ≡ seat }
    {
        Bounded { rt, bounds, seat }
    }

    /// The seat.
    pub(crate) fn into_seat(self) -> T
        ensures { result ≡ self.entry }
    {
        let Bounded {
            rt: _,
            bounds: _,
            seat,
        } = self;
        seat
    }
}

impl<'a, R: Wait, T: Seat> Seat for Bounded<'a, R, T> {
    ghost header = { λ b. T.header b };

    ghost front = { λ b. T.front b };

    ghost number = { λ b. T.number b };

    ghost sealed = { λ b. T.sealed b };

    ghost Home = { T.Home };

    ghost home = { λ b. T.home b };

    ghost replies = { T.replies };

    fn sealed(&self) -> u64 {
        self.seat.sealed()
    }

    fn change(&mut self, alloc: Global, ask: &Ask) -> Result<Granted, ChangeFault> {
        self.bounds.changes.take(self.rt);
        let answer = self.seat.change(alloc, ask);
        self.bounds.changes.give_back(self.rt);
        answer
    }

    fn put_content(&mut self, alloc: Global, bytes: Vec<u8>) -> Result<Granted, ChangeFault> {
        self.bounds.changes.take(self.rt);
        let answer = self.seat.put_content(alloc, bytes);
        self.bounds.changes.give_back(self.rt);
        answer
    }

    fn look(&mut self, alloc: Global, question: &Question) -> Result<Seen, AskFault> {
        self.bounds.looks.take(self.rt);
        let answer = self.seat.look(alloc, question);
        self.bounds.looks.give_back(self.rt);
        answer
    }

    ghost lawful = { T.lawful };

    ghost widens = { T.widens };
}

impl<'a, R: Wait, T: StackSeat> StackSeat for Bounded<'a, R, T> {
    ghost enters = { T.enters };

    fn change_all(&mut self, alloc: Global, asks: &[Ask]) -> Result<Granted, StackFault> {
        self.bounds.changes.take(self.rt);
        let answer = self.seat.change_all(alloc, asks);
        self.bounds.changes.give_back(self.rt);
        answer
    }
}
