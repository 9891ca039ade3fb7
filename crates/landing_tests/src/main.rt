//! Landings on a repository in a file: one that was planned, between whose plan and entry another seat moves the bookmark or
//! sets a policy, and those that a policy decides on; and contents that are joined there.
#![tactic(auto)]

#[cfg(test)]
mod joining;
#[cfg(test)]
mod moves;
#[cfg(test)]
mod policies;
#[cfg(test)]
mod repository;

fn main() {}
