//! Laws of the definitions of fsnodes and unodes where changesets have two parents, on which their derivation from both
//! parents' manifests rests.
#![tactic(auto)]

pub mod laws;
