//! Tests of changesets, by tables. The expected bytes, ids and places were computed with another program.
#![tactic(auto)]

#[cfg(test)]
mod bytes;
#[cfg(test)]
mod changesets;
#[cfg(test)]
mod copies;
#[cfg(test)]
mod faults;
#[cfg(test)]
mod making;
#[cfg(test)]
mod samples;
