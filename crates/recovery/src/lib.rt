//! Opens the repository in a file: reads its header and its records, and enters what they stand for.
#![tactic(auto)]

mod begin;
pub mod enter;
pub mod fault;
mod header;
pub mod opened;
pub mod opening;
mod pieces;
mod records;
pub mod replay_fault;
mod wholes;

pub use enter::enter_payload;
pub use fault::OpenFault;
pub use opened::Opened;
pub use opening::open;
pub use replay_fault::ReplayFault;
