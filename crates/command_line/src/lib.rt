//! The program: what it does with its words, its link and the files that it opens, and the status that it ends with.
#![tactic(auto)]

pub mod came;
mod follow;
pub mod fsck;
pub mod init;
pub mod load;
pub mod migrate;
pub mod opening;
pub mod program;
pub mod ran;
pub mod report;
pub mod serve;
pub mod session;
pub mod status;
mod watched;

pub use came::Came;
pub use fsck::fsck_file;
pub use init::init_file;
pub use migrate::{Migration, migrate_file};
pub use opening::{OpenedFile, open_file};
pub use program::{refuse_words, run};
pub use ran::Ran;
pub use report::{Report, end_run};
pub use status::{Outcome, Status};
