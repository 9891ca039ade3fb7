//! A value that seats take turns with, and the one history of what they did.
//! Each seat knows the history that it has seen; all of these begin one and the same.
#![tactic(auto)]

mod lock;
mod plays;
mod seat;
mod steps;
mod value;
mod view;

pub use lock::TurnLock;
pub use seat::Seat;
pub use value::Recorded;
