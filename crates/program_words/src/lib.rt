//! The words of the program's command line: which command they are, with its numbers in their ranges, or that they are
//! none; and the texts that the program answers such words with.
#![tactic(auto)]

pub mod command;
pub mod fault;
mod line;
mod number;
pub mod ranges;
pub mod session_words;
pub mod texts;
pub mod words;

pub use command::Command;
pub use fault::WordsFault;
pub use ranges::{NumberFault, number_fault};
pub use session_words::asks_session;
pub use words::read_words;
