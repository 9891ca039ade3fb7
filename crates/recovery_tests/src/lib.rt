//! Tests of opening files.
#![tactic(auto)]

#[cfg(test)]
mod files;
#[cfg(test)]
mod merges;
#[cfg(test)]
mod samples;
#[cfg(test)]
mod versions;
#[cfg(test)]
mod wholes;
