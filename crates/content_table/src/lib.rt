//! The contents of a repository by their ids: where the bytes of each stand in the file, and of which others one was joined.
#![tactic(auto)]

pub mod part;
mod pieces;
pub mod place;
pub mod stored;
pub mod table;

pub use part::Part;
pub use place::Place;
pub use stored::{Stored, Whole};
pub use table::ContentTable;
