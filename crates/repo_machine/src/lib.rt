//! The repository of one thread: a history with its indexes, and the reply to each call at it.
//! A call costs what its own work costs; no call but `counts` and `clear_seats` goes through the history.
#![tactic(auto)]

pub mod bookmarks;
mod clashes;
pub mod contents;
pub mod copies;
pub mod counts;
pub mod entering;
pub mod exchange;
pub mod faults;
pub mod found;
mod frame;
pub mod framed_content;
mod held_rules;
pub mod judge;
pub mod judged;
pub mod landings;
pub mod laws;
pub mod log;
pub mod machine;
pub mod plain;
pub mod plan;
pub mod plan_again;
pub mod policies;
pub mod prepared;
mod preparing;
pub mod reads;
pub mod rebased;
mod records;
pub mod replaying;
pub mod seats;
mod touches;
pub mod uploads;
pub mod wholes;

pub use copies::copied_paths;
pub use counts::Counts;
pub use found::{Found, Joined};
pub use framed_content::FramedContent;
pub use judged::Judged;
pub use machine::Machine;
pub use plan::Plan;
pub use prepared::{Prepared, Wanted, prepare};
pub use rebased::Rebased;
