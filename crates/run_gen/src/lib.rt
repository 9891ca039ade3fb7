//! A generated load: clients land stacks on one repository in memory, at once, and what is left is
//! the same at every run but for the order of their landings.
#![tactic(auto)]

mod asking;
mod base;
pub mod begin;
mod clients;
mod crew;
mod draws;
mod fault;
mod joins;
mod laws;
mod loading;
mod names;
mod part;
mod stack;
mod summary;
mod upload;

pub use base::{MAIN, base_encoding};
pub use clients::client;
pub use draws::Draws;
pub use fault::LoadFault;
pub use laws::{landings_of_calls, own_entries};
pub use loading::load;
pub use part::Part;
pub use summary::Summary;
pub use upload::{Upload, next_upload};
