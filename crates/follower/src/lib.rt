//! Follows the log of a server: asks it over a link for what it has stored, and does the same in a repository of one's own.
#![tactic(auto)]

mod asking;
pub mod followed;
mod inbox;
mod line_ask;
mod log_walk;
mod own_repository;
mod placing;
mod reading;
mod replay;
mod replayed;
mod repository;
mod same_line;
pub mod wanted;

pub use followed::{FollowEnd, Followed};
pub use repository::follow;
pub use wanted::Wanted;
