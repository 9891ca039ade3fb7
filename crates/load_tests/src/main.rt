//! Generated loads: runs of the program over memory, from the words to the status and the line, and clients that land one
//! after another. The numbers and roots are those of an independent computation.
#![tactic(auto)]

#[cfg(test)]
mod in_turn;
#[cfg(test)]
mod runs;

fn main() {}
