//! The definitions of the requests of a stream of HTTP/1.1: what stands first on it, where each message ends, and how a session ends.
#![tactic(auto)]

pub mod head_refusal;
pub mod laws;

pub use head_refusal::HeadRefusal;
