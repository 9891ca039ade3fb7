//! Changes of one seat that are made one after another and sealed together.
#![tactic(auto)]

pub mod seat;

pub use seat::{StackFault, StackSeat};
