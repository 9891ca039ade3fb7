//! What a deleted node has under a name.

use node_fields::Child;
use object_id::Id;

/// The deleted node of a path that is longer by the name.
#[derive(Clone, Copy, Debug, PartialEq, Eq)]
pub struct DeletedEntry {
    /// The id of that node.
    pub id: Id,
}

/// An entry and its name.
pub type DeletedChild = Child<DeletedEntry>;
