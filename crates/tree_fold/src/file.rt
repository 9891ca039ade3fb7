//! A file of a tree.
use bonsai::FileKind;
use object_id::Id;

/// A file of a tree.
#[derive(Clone, Copy, Debug, PartialEq, Eq)]
pub struct File {
    /// The id of the content.
    pub content: Id,
    pub kind: FileKind,
    /// The content's length in bytes.
    pub size: u64,
}
