//! What is asked of a repository and what it answers: changes with their grants and refusals, and pages of the log.
//! `specs` says which question and which answer of the definitions each is.
#![tactic(auto)]

pub mod ask;
pub mod calls;
pub mod copies;
pub mod denied;
pub mod laws;
pub mod log;
pub mod refusal;
pub mod seat;

pub use ask::{Ask, Granted, Landed};
pub use calls::{AskFault, ChangeFault, Question, Seen};
pub use copies::CopiedPath;
pub use denied::DeniedPlace;
pub use log::{LogEntry, LogPage};
pub use refusal::Refusal;
pub use seat::Seat;
