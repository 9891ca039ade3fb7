//! Which of the changesets that go by numbers may touch a path, or one that is above or below it. It only rules changesets out:
//! what it leaves has to be looked at.
#![tactic(auto)]

mod entering;
pub mod index;
mod keys;
mod lists;
mod numbers;
pub mod range;

pub use index::TouchIndex;
pub use range::Range;
