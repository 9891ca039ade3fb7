//! A disk as the layers above see it: a few calls, what reads give, and what a crash may leave at any moment.
//! `MemDisk` is one in memory, whose calls can be made to fail and which can be crashed.
#![tactic(auto)]

mod call_kind;
mod calls;
mod content;
pub mod disk;
mod handles;
mod mem_disk;
mod record;
mod recorder;

pub use call_kind::CallKind;
pub use disk::{Disk, Flush, Peer};
pub use handles::{NoFlush, NoPeer};
pub use mem_disk::MemDisk;
pub use ports::Failed;
