//! What opening a file gives.
use repo_journal::Journal;
use repo_machine::Machine;

/// The repository in a file: what is known of it, and its journal.
#[derive(Drop)]
pub struct Opened {
    pub machine: Machine,
    pub journal: Journal,
}
