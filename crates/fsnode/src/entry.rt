//! What a directory has under a name.

use crate::summary::Summary;
use bonsai::FileKind;
use node_fields::Child;
use object_id::Id;

/// A file or a directory.
#[derive(Clone, Copy, Debug, PartialEq, Eq)]
pub enum FsEntry {
    File {
        /// The id of its content.
        content: Id,
        kind: FileKind,
        /// The length of its content in bytes.
        size: u64,
    },
    Directory {
        /// The id of its fsnode.
        id: Id,
        summary: Summary,
    },
}

/// An entry and its name.
pub type FsChild = Child<FsEntry>;
