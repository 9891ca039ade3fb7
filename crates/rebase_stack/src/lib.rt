//! Stacks of changesets: which paths they touch, and the same stack on another head.
#![tactic(auto)]

mod paths;
mod stack;

pub use paths::touched;
pub use stack::{rebase, rebase_into, rebased_length};
