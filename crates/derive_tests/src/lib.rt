//! Tests of derivations. Sizes of nodes and summaries are counted by their formats, and what is derived step by step is
//! compared with what one changeset gives that sets all files; what a merge gives, with the tree that the plain program
//! works out.
#![tactic(auto)]

#[cfg(test)]
mod changes;
#[cfg(test)]
mod lines;
#[cfg(test)]
mod merges;
#[cfg(test)]
mod store;
#[cfg(test)]
mod trees;
#[cfg(test)]
mod walks;
