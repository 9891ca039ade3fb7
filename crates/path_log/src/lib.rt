//! The log of a path: of a changeset, its first parent and so on those that changed the path, also before it was deleted
//! and set again.
#![tactic(auto)]

mod counted;
pub mod laws;
pub mod lines;
pub mod members;
mod walking;

pub use lines::Lines;
pub use members::{ByMembers, Members, last_by_members};
pub use walking::walk;
