//! What a directory has under a name.

use node_fields::Child;
use object_id::Id;

/// A file or a directory, each by the id of its unode.
#[derive(Clone, Copy, Debug, PartialEq, Eq)]
pub enum UnodeEntry {
    File(Id),
    Directory(Id),
}

/// An entry and its name.
pub type UnodeChild = Child<UnodeEntry>;
