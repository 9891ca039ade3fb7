//! Fsnodes: the manifest of a directory's files, which is one for equal directories. An fsnode's id is the SHA-256
//! (FIPS 180-4) of its one spelling.
#![tactic(auto)]

pub mod entry;
mod lookup;
pub mod node;
mod reading;
pub mod summary;
mod writing;

pub use entry::{FsChild, FsEntry};
pub use lookup::entry_in;
pub use node::Fsnode;
pub use reading::decode;
pub use summary::Summary;
pub use writing::encode;
