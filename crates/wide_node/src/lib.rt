//! The node of a wide directory in parts that versions of it share. The entry of a name is found in one part.
#![tactic(auto)]

mod counts;
mod kind;
mod making;
pub mod wide;

pub use wide::WideNode;
