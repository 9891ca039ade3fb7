//! A repository in a file: machine, journal and disk, kept together through each change and each fault.
#![tactic(auto)]

pub mod alone;
pub mod content_places;
pub mod content_reads;
pub mod counts;
pub mod derived;
pub mod exchange;
pub mod exchanged;
pub mod file_version;
pub mod fill;
pub mod group_images;
mod joining;
pub mod landing_laws;
pub mod laws;
pub mod left;
pub mod look;
pub mod manifests;
pub mod plan;
pub mod plan_again;
pub mod read_content;
pub mod seal;
pub mod seal_step;
mod seal_turns;
pub mod sealing;
pub mod seats;
pub mod state;
pub mod store;

pub use alone::Alone;
pub use content_places::ContentPlaces;
pub use derived::settle_fault;
pub use exchanged::Exchanged;
pub use left::Left;
pub use read_content::{ReadContent, check_digest};
pub use sealing::Sealing;
pub use state::RepoState;
