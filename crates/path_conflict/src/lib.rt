//! Which paths of two lists clash: those that are equal, and those of which one lies under the other.
#![tactic(auto)]

mod counted;
mod least;
mod lesser;
mod outer;
mod search;

pub use least::{Clash, is_rising, least_clash, least_clash_uncounted};
pub use lesser::{Met, lesser_clash};
pub use outer::outermost;
