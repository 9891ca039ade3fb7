//! The manifests of a changeset from those of its parents: only the directories above its change paths, those of which two
//! parents have different unodes, and the deleted nodes of the paths where files come or go are made anew, and all other
//! nodes are shared by id.
#![tactic(auto)]

mod covering;
mod deletions;
pub mod derivation;
pub mod done;
mod fsnodes;
pub mod held;
pub mod job;
mod join;
mod kind;
mod made;
mod merge;
mod named;
mod nodes;
mod place;
mod renewal;
mod slices;
mod summing;
mod touched;
mod unodes;
mod walk;

pub use derivation::derive;
pub use done::Done;
pub use held::HeldNodes;
pub use job::{Deletions, DirIds, DirNodes, Job, Parent, Parents};
pub use place::text_above;
