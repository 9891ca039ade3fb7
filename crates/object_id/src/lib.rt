//! Ids of contents and changesets: the SHA-256 of their bytes, and its hex text.
#![tactic(auto)]

pub mod hasher;
pub mod id;

pub use hasher::Hasher;
pub use id::{BadHex, Id};
