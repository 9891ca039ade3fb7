//! What is told of a disk at one moment, what its calls do to that, and what a crash may leave.
#![tactic(auto)]

pub mod laws;
