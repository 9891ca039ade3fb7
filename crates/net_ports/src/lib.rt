//! The outside world as it is: standard streams as sources and sinks, TCP
//! connections as links, and the system's clock.
//! They count their failures and tell nothing of their bytes.
#![tactic(auto)]

mod asking;
mod concern;
mod porch;
pub mod reader_source;
mod silent;
pub mod system_clock;
pub mod tcp_accept;
pub mod tcp_dial;
pub mod tcp_link;
pub mod writer_sink;

pub use porch::PAUSE;
pub use reader_source::ReaderSource;
pub use silent::{MOST_SILENT, SILENCE};
pub use system_clock::SystemClock;
pub use tcp_accept::TcpAccept;
pub use tcp_dial::{DIAL, TcpDial};
pub use tcp_link::{IDLE_PATIENCE, READ_PATIENCE, REQUEST_PATIENCE, TcpLink, WRITE_PATIENCE};
pub use writer_sink::WriterSink;
