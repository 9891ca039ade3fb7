//! A table of the nodes of manifests, each under its id, which is the SHA-256 (FIPS 180-4) of its bytes, with the roots
//! of the changesets that are settled. Wide nodes are kept in parts that they share.
#![tactic(auto)]

pub mod bytes;
pub mod fault;
pub mod laws;
mod lookups;
pub mod node;
mod root_table;
pub mod roots;
mod store;
mod stored;
pub mod table;

pub use bytes::NodeBytes;
pub use fault::TableFault;
pub use node::Node;
pub use roots::Roots;
pub use table::NodeTable;
