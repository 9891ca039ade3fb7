//! Unodes of files.

use crate::parents::Parents;
use bonsai::FileKind;
use object_id::Id;

/// A file as one changeset set it.
#[derive(Clone, Copy, Debug, PartialEq, Eq)]
pub struct FileUnode {
    /// The unodes of the same path before, where the path was a file.
    pub parents: Parents,
    /// The id of its content.
    pub content: Id,
    pub kind: FileKind,
    /// The SHA-256 of its path's text.
    pub path_hash: Id,
    /// The changeset that set it.
    pub linknode: Id,
}
