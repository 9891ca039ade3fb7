//! The least path that a merge leaves unresolved, found by walking the manifests of its parents where they differ. Equal
//! ids are equal trees, so a merge in a large tree costs by the directories that differ.
#![tactic(auto)]

mod decided;
mod directories;
mod fsnodes;
mod joined;
pub mod laws;
mod left;
mod meeting;
mod walk;

pub use directories::Directories;
pub use fsnodes::Fsnodes;
pub use walk::least_unresolved;
