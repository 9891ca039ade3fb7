//! Servers over memory: which links are served and how often, that two are served at once, and which
//! changesets derivers are told of.
#![tactic(auto)]

#[cfg(test)]
mod derivers;
#[cfg(test)]
mod landings;
#[cfg(test)]
mod links;
#[cfg(test)]
mod repository;
#[cfg(test)]
mod serving;
#[cfg(test)]
mod watched;

fn main() {}
