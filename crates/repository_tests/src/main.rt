//! Tests of the repository's crates, as tables by subject. What is expected is worked out by hand, or is a SHA-256 (FIPS
//! 180-4) that another program computed. Helpers have no contract, so that a test's proof doesn't carry what they call.
#![tactic(auto)]

#[cfg(test)]
mod acts;
#[cfg(test)]
mod changes;
#[cfg(test)]
mod dates;
#[cfg(test)]
mod examples;
#[cfg(test)]
mod heads;
#[cfg(test)]
mod landings;
#[cfg(test)]
mod merges;
#[cfg(test)]
mod plans;
#[cfg(test)]
mod plans_again;
#[cfg(test)]
mod policies;
#[cfg(test)]
mod records;
#[cfg(test)]
mod replays;
#[cfg(test)]
mod rows;
#[cfg(test)]
mod stacks;
#[cfg(test)]
mod steps;
#[cfg(test)]
mod store;
#[cfg(test)]
mod trees;

fn main() {}
