//! Runs of the program as a server, over memory and over a socket, from the words, the file and the connections to the
//! status, the line written and the file left.
#![tactic(auto)]

#[cfg(test)]
mod following;
#[cfg(test)]
mod gates;
#[cfg(test)]
mod given;
#[cfg(test)]
mod landings;
#[cfg(test)]
mod moves;
#[cfg(test)]
mod servers;

fn main() {}
