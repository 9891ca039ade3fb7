//! What is left when a server has ended.

use blob_disk::Disk;
use http_front::connection::ServedLinks;
use repo_state::RepoState;

/// What is left of a server: its repository and its accept, and how many links were served.
#[derive(Drop)]
pub struct Closing<D: Disk, A: Drop, L: Drop> {
    /// The repository. Where there was no memory to begin it is given back.
    pub state: RepoState<D>,
    /// Whether there was memory to begin.
    pub began: bool,
    pub accept: A,
    pub served: ServedLinks<L>,
}
