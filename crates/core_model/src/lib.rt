//! The repository as a machine of many seats over a disk that may fail and crash.
#![tactic(auto)]

pub mod laws;
