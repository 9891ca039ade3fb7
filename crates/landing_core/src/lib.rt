//! Laws of the core and of its steps: what is stored stays, which steps an answer stands for, and what is settled by them.
#![tactic(auto)]

pub mod core_laws;
pub mod settle_laws;
pub mod step_laws;
