//! A repository in a file that many seats share: each call of a seat is answered as the repository
//! of one thread answers it, at a history that the seat has seen then. A change is granted once it is sealed, in a group with
//! what others changed meanwhile; reads see what waits too.
#![tactic(auto)]

mod calls;
mod changes;
mod contents;
mod derivation;
mod derivation_turns;
mod landing;
mod landing_turns;
mod reads;
mod repo;
mod sealing;
mod seat;
mod served;
mod turns;

pub use node_table::Roots;
pub use repo::Repo;
pub use seat::RepoSeat;
pub use served::Served;
