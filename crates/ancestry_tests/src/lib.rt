//! Tests of ancestors by number, as tables.
#![tactic(auto)]

#[cfg(test)]
mod counted;
#[cfg(test)]
mod lines;
