//! The definitions of paths and changesets, with their laws.
#![tactic(auto)]

pub mod laws;
