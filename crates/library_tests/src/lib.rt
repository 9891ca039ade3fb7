//! Tests of libraries on their own: policies, nodes of what was deleted, trees of merges, and what another server
//! answers. No call of the program reaches the last two yet.
#![tactic(auto)]

#[cfg(test)]
mod deletions;
#[cfg(test)]
mod merges;
#[cfg(test)]
mod policies;
#[cfg(test)]
mod replies;
#[cfg(test)]
mod texts;
