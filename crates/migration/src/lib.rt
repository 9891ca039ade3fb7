//! Makes a file of the second version that stands for the history of another file.
#![tactic(auto)]

mod copying;
pub mod fault;
pub mod files;
pub mod laws;
mod migrating;

pub use fault::MigrateFault;
pub use files::{Target, migrate_to};
pub use migrating::migrate;
