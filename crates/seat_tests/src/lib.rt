//! Tests of sessions over seats that no disk in memory can make.
#![tactic(auto)]

#[cfg(test)]
mod rows;
#[cfg(test)]
mod ticking;
#[cfg(test)]
mod told;
