//! What a merge of known changesets leaves unresolved, by the plain program. It serves where no manifests are at hand.
#![tactic(auto)]

mod left;

pub use left::left_unresolved;
