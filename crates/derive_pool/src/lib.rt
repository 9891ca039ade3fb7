//! Manifests derived ahead of reads: ids of changesets go over a channel to derivers, each in a thread of
//! its own. Nothing is promised of what comes over the channel.
#![tactic(auto)]

pub mod channel;
pub mod feed;
mod heads;
pub mod pool;

pub use channel::{IdsFrom, IdsTo, ids_channel};
pub use feed::Feed;
pub use pool::{Derives, derive_ids};
