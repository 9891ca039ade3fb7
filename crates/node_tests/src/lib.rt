//! Tests of the nodes of manifests. The expected bytes, ids and places were computed with another program.
#![tactic(auto)]

#[cfg(test)]
mod bytes;
#[cfg(test)]
mod faults;
#[cfg(test)]
mod fsnodes;
#[cfg(test)]
mod nodes;
#[cfg(test)]
mod tables;
#[cfg(test)]
mod unodes;
#[cfg(test)]
mod wide;
