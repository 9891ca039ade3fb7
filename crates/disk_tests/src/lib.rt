//! Tests of the outside world over memory, of disks and of the journal, by subject.
#![tactic(auto)]

#[cfg(test)]
mod accepts;
#[cfg(test)]
mod files;
#[cfg(test)]
mod journals;
#[cfg(test)]
mod mem_disks;
#[cfg(test)]
mod migrations;
#[cfg(test)]
mod openers;
#[cfg(test)]
mod rows;
#[cfg(test)]
mod scans;
#[cfg(test)]
mod seals;
#[cfg(test)]
mod streams;
