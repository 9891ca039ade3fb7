//! What the nodes of manifests are made of: names, and their fields as they are read and written, each
//! with the place of its first fault.
#![tactic(auto)]

pub mod child;
pub mod fault;
pub mod field;
pub mod lookup;
pub mod name;

pub use child::Child;
pub use fault::NodeFault;
pub use lookup::{Entry, entry_named};
pub use name::Name;
