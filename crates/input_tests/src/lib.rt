//! Tests of what comes in: the words of the command line, and requests that are cut out of streams.
#![tactic(auto)]

#[cfg(test)]
mod streams;
#[cfg(test)]
mod words;
