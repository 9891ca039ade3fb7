//! Repositories over memory that seats share: landings between which a gate moves the bookmark, their moments by a clock,
//! roots that are derived, contents that are joined, second handles of a disk, a disk that fails, and threads that store at
//! once. Helpers have no contract beyond what their calls need, so that a test's proof doesn't carry what they call.
#![tactic(auto)]

#[cfg(test)]
mod cold_reads;
#[cfg(test)]
mod derivation;
#[cfg(test)]
mod gates;
#[cfg(test)]
mod joins;
#[cfg(test)]
mod landings;
#[cfg(test)]
mod looks;
#[cfg(test)]
mod meanwhile;
#[cfg(test)]
mod moments;
#[cfg(test)]
mod peered;
#[cfg(test)]
mod repository;
#[cfg(test)]
mod seals;
#[cfg(test)]
mod seats;
#[cfg(test)]
mod steps;
#[cfg(test)]
mod swapping;
#[cfg(test)]
mod threads;
#[cfg(test)]
mod ticking;
#[cfg(test)]
mod waiting;

fn main() {}
