//! The definitions of histories, chains, trees, bookmarks, pushrebase and the journal, with their laws.
#![tactic(auto)]

pub mod laws;
