//! The deleted nodes of a changeset from those of its first parent: only the nodes of paths where files come or go, and of
//! the directories above these, are made anew, and all other nodes are shared by id.
#![tactic(auto)]

mod closing;
pub mod derivation;
pub mod done;
pub mod fault;
pub mod laws;
mod links;
pub mod nodes;
mod opened;
mod path_text;
mod renewal;
mod unfolded;
mod way;

pub use derivation::derive_deleted;
pub use done::Done;
pub use fault::StepFault;
pub use nodes::Nodes;
