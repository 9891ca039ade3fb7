//! The entries of a wide directory in parts that versions of it share, and the entry of a name in them.
#![tactic(auto)]

pub mod cutting;
pub mod finding;
pub mod part;
pub mod pool;
mod reading;

pub use cutting::parts_of;
pub use finding::entry_in_parts;
pub use part::{Part, parts_are, parts_len, write_parts};
pub use pool::PartPool;
