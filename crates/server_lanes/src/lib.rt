//! Many connections on one repository: lanes take links from one accept, and each serves its own at a
//! seat of its own, at once with the others. Beside them derivers derive manifests ahead of their reads.
#![tactic(auto)]

mod both;
mod bounded;
mod closing;
mod commons;
mod crew;
mod derivers;
mod deriving_seat;
mod door;
mod feeding;
mod lane;
mod lanes;
mod permits;
mod run;
mod serving;
mod tally;

pub use closing::Closing;
pub use serving::serve_all;
