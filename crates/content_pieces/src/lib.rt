//! Stored contents that are joined to one: the id of the joined bytes, without memory.
#![tactic(auto)]

pub mod fault;
mod feeding;
mod joined;
pub mod piece;

pub use fault::PieceFault;
pub use joined::joined_id;
pub use piece::Piece;
