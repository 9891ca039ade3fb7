//! What a policy decides that may be held. Where none is held all is allowed.
#![tactic(auto)]

mod bookmarks;
mod landings;
mod places;
mod policies;
mod ruled;

pub use bookmarks::check_bookmark;
pub use landings::{check_landing, denied_among};
pub use places::{DeniedAt, denied_at};
pub use policies::check_policy;
