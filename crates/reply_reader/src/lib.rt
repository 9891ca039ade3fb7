//! Reads the replies of a server: what stands at the front of a link's bytes, as one response of HTTP/1.1.
//! It keeps nothing, so the same bytes have the same answer however they came.
#![tactic(auto)]

mod framing;
pub mod front;
mod head;
mod header_values;
pub mod laws;
pub mod media;
pub mod reply_fault;

pub use front::{Front, Reply, read_reply};
pub use head::HEADER_ROOM;
pub use header_values::MOST_BODY;
pub use media::Media;
pub use reply_fault::ReplyFault;
