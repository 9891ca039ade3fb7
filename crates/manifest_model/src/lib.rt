//! The definitions of fsnodes and unodes, with their laws.
#![tactic(auto)]

pub mod laws;
