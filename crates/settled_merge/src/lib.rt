//! What a merge leaves unresolved between the trees of known changesets, by their manifests where these are at hand.
#![tactic(auto)]

mod derive;
mod left;

pub use derive::derive_parents;
pub use left::left_unresolved;
