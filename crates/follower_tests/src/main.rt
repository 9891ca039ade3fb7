//! Servers that are followed: what they reply, and what no server of ours does.
#![tactic(auto)]

#[cfg(test)]
mod ends;
#[cfg(test)]
mod following;
#[cfg(test)]
mod replying;
#[cfg(test)]
mod repository;

fn main() {}
