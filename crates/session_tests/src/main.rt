//! Runs of the program over memory, from the words, the file and the bytes read to the status, the bytes written and the
//! file left, by tables.
#![tactic(auto)]

#[cfg(test)]
mod files;
#[cfg(test)]
mod followings;
#[cfg(test)]
mod heads;
#[cfg(test)]
mod landings;
#[cfg(test)]
mod links;
#[cfg(test)]
mod migrations;
#[cfg(test)]
mod program;
#[cfg(test)]
mod real_file;
#[cfg(test)]
mod session;
#[cfg(test)]
mod stops;
#[cfg(test)]
mod words;

fn main() {}
