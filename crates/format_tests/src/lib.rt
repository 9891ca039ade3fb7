//! Tests of ids, paths and entries of a history, by tables. The expected bytes, ids and places were computed with
//! another program.
#![tactic(auto)]

#[cfg(test)]
mod bytes;
#[cfg(test)]
mod entries;
#[cfg(test)]
mod faults;
#[cfg(test)]
mod ids;
#[cfg(test)]
mod paths;
#[cfg(test)]
mod samples;
