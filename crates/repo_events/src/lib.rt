//! The entries of a history, and the records of a journal that stand for them.
//! A record holds an entry's payload: one payload for each entry that is stored.
#![tactic(auto)]

pub mod body;
pub mod decoding;
pub mod encoding;
pub mod landing;
pub mod limits;
mod mark;
mod parts;
pub mod payload_fault;
pub mod spelled;

pub use body::{Body, Landing, Move};
pub use decoding::decode_payload;
pub use encoding::{LandingHead, content_frame, encode_entry, frame_payload};
pub use landing::{begin_landing, landing_length};
pub use limits::{FRAME, MOST_PAYLOAD, MOST_STACK};
pub use payload_fault::PayloadFault;
pub use spelled::Spelled;
