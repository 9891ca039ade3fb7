//! Deleted nodes: the manifest of what was deleted. The node of a path tells which changeset took a file away there, if no
//! file is there now, and leads to the nodes of the paths under it. Its id is the SHA-256 (FIPS 180-4) of its one spelling.
#![tactic(auto)]

pub mod entry;
pub mod laws;
mod lookup;
pub mod node;
mod reading;
mod writing;

pub use entry::{DeletedChild, DeletedEntry};
pub use lookup::{entry_in, link_in};
pub use node::DeletedNode;
pub use reading::decode;
pub use writing::encode;
