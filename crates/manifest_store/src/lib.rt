//! The derived manifests of the known changesets, kept in memory: which are settled, the next job of a chain, what was
//! derived of one put in, and the reads of a settled changeset.
#![tactic(auto)]

mod apart;
mod brought;
mod decided;
mod deletions;
mod dirs;
pub mod fault;
mod history;
mod holding;
mod job;
pub mod laws;
mod links;
mod logs;
mod merging;
mod moves;
mod nodes;
mod place;
mod reads;
mod settle;
pub mod store;
mod under;
mod walk;

pub use fault::ManifestFault;
pub use store::ManifestStore;
