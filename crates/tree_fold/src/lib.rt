//! The tree that a chain of changesets makes: its files by rising paths, to which changesets are applied one after another.
#![tactic(auto)]

mod applied;
pub mod child;
mod cleared;
mod edited;
pub mod file;
pub mod laws;
mod listing;
mod placed;
pub mod tree;

pub use child::Child;
pub use file::File;
pub use tree::Tree;
