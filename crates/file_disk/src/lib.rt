//! A disk over a real file. It counts its failures, says their causes on standard error, and tells nothing of what the file
//! holds.
#![tactic(auto)]

pub mod disk;
pub mod flush;
pub mod opener;
pub mod peer;
mod tally;
mod telling;

pub use disk::FileDisk;
pub use flush::FileFlush;
pub use opener::FileOpener;
pub use peer::FilePeer;
