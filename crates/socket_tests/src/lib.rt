//! Tests of TCP connections, which the tests make with themselves.
#![tactic(auto)]

#[cfg(test)]
mod links;
#[cfg(test)]
mod silence;
#[cfg(test)]
mod still;
