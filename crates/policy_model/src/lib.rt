//! The rules of who may change what, what they decide, and the text of a policy.
#![tactic(auto)]

pub mod laws;
