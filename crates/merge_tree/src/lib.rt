//! The trees of changesets with up to two parents, as the plain program: of each changeset from nothing, and where the
//! trees of a merge's parents don't agree.
#![tactic(auto)]

pub mod against;
pub mod flat;
pub mod laws;
pub mod lineage;
mod listed;
mod merged;
mod placed;

pub use against::unresolved;
pub use flat::{Flat, FlatFile};
pub use lineage::{Lineage, MOST_MEMBERS, Parents};
