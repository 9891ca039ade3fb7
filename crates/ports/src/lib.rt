//! The outside world as traits: what a program reads from and writes to, and how often that failed.
//! Over memory an object tells what it has; a real one tells only its failures.
#![tactic(auto)]

pub mod accept;
pub mod clock;
pub mod failed;
pub mod gate;
pub mod link;
pub mod mem_accept;
pub mod mem_link;
pub mod mem_opener;
pub mod mem_sink;
pub mod mem_source;
pub mod opener;
pub mod pair;
pub mod sink;
pub mod source;
pub mod zero_bytes;

pub use accept::Accept;
pub use clock::{Clock, FixedClock};
pub use failed::Failed;
pub use gate::{Gate, NoGate};
pub use link::Link;
pub use mem_accept::MemAccept;
pub use mem_link::MemLink;
pub use mem_opener::{MemOpener, Slot};
pub use mem_sink::MemSink;
pub use mem_source::MemSource;
pub use opener::Opener;
pub use pair::Pair;
pub use sink::Sink;
pub use source::Source;
pub use zero_bytes::ZeroBytes;
