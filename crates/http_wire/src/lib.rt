//! Cuts a stream of HTTP/1.1 into its requests: bytes go in, in pieces of any size, and whole requests come out.
//! The requests are those that `http_model` defines, however the stream was cut.
#![tactic(auto)]

mod connection;
mod cutter;
mod cutting;
mod head;
mod head_outcome;
mod header_fields;
mod next;
mod request;
mod texts;

pub use cutter::{Cutter, MOST_PIECE, MOST_REQUEST};
pub use http_model::HeadRefusal;
pub use next::Next;
pub use request::{Caller, Request, Version};
