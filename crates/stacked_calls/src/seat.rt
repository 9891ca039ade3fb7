//! A seat that makes several changes at one request.
ghost use Rattle.std.specs.Prelude.{◌≡◌, ◌<◌, ◌≤◌, length};
ghost use Rattle.reply_model.specs.After.{Relation};
ghost use Rattle.stacked_calls.specs.Stacking.{IsChained, calls_seen};

use repo_calls::{Ask, ChangeFault, Granted, Seat};
use std::alloc::Global;
use thiserror::Error;

/// Why changes that were asked for one after another ended before the last was granted.
#[derive(Debug, PartialEq, Drop, Error)]
#[error("change {at}: {fault}")]
pub struct StackFault {
    /// The place of the change that wasn't granted, from 0. Those before it were.
    pub at: usize,
    pub fault: ChangeFault,
}

/// A seat that makes several changes at one request.
pub trait StackSeat: Seat {
    /// How a change is granted of which the seal may fail later.
    ghost enters: { Relation };

    /// Makes changes one after another, each as `change` does, up to the first that isn't granted. Once all are granted, what
    /// the last was granted is answered. A seat may seal them together, behind the last.
    fn change_all(&mut self, alloc: Global, asks: &[Ask]) -> Result<Granted, StackFault>
        requires some { 0 < length asks.now }
        ensures reply { IsChained (record { replies = Self.replies (Self.home self.old) (Self.sealed self.new); enters = enters }) (Self.header self.old) (Self.number self.old) (Self.front self.old) (calls_seen asks.now) result (Self.front self.new) }
        ensures header { Self.header self.new ≡ Self.header self.old }
        ensures number { Self.number self.new ≡ Self.number self.old }
        ensures seals { Self.sealed self.old ≤ Self.sealed self.new }
        ensures home { Self.home self.new ≡ Self.home self.old }
    {
        let Some((last, earlier)) = asks.split_last() else {
            unreachable!()
        };
        let mut at = 0;
        for ask in earlier {
            if let Err(fault) = self.change(alloc, ask) {
                return Err(StackFault { at, fault });
            }
            at += 1;
        }
        match self.change(alloc, last) {
            Ok(granted) => Ok(granted),
            Err(fault) => Err(StackFault { at, fault }),
        }
    }
}
