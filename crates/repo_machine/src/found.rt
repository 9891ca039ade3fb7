//! What the layer above finds for a change, since no machine reads the disk or keeps trees.
ghost use Rattle.std.specs.Prelude.{◌≡◌};
ghost use Rattle.repo_machine.specs.Found.{left_of};

use object_id::Id;
use repo_path::RepoPath;

/// Contents that were read and joined: their ids in order, and the id and the length of their bytes, one behind another.
#[derive(Drop)]
pub struct Joined {
    pub parts: Vec<Id>,
    pub id: Id,
    pub length: u64,
}

/// What was found for a change before it is judged.
#[derive(Drop)]
pub enum Found {
    /// Nothing is needed: all changes but the two below.
    Nothing,
    /// Of contents that are to be joined: what was read of them.
    Joined(Joined),
    /// Of a changeset with two parents: the least path at which their trees stand against one another and that it leaves, or
    /// none.
    Unresolved(Option<RepoPath>),
}

impl Found {
    // The path that was found to be left unresolved, if one was.
    pub(crate) fn left(self) -> Option<RepoPath>
        ensures { result ≡ left_of self }
    {
        match self {
            Found::Unresolved(path) => path,
            Found::Nothing | Found::Joined(_) => None,
        }
    }
}
