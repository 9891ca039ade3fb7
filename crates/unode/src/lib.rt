//! Unodes: the manifest of a path with its past. A path has a new unode at each changeset that changes it, and keeps it
//! at all others. A unode's id is the SHA-256 (FIPS 180-4) of its one spelling.
#![tactic(auto)]

pub mod entry;
pub mod file;
pub mod laws;
mod lookup;
pub mod manifest;
pub mod node;
pub mod parents;
mod reading;
mod writing;

pub use entry::{UnodeChild, UnodeEntry};
pub use file::FileUnode;
pub use lookup::entry_in;
pub use manifest::UnodeManifest;
pub use node::Unode;
pub use parents::Parents;
pub use reading::{decode, decode_file};
pub use writing::encode;
