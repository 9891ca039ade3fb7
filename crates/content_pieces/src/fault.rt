//! Why contents can't be joined.
use object_id::Id;
use thiserror::Error;

/// Why there is no id of the joined bytes.
#[derive(Clone, Copy, Debug, PartialEq, Eq, Drop, Error)]
pub enum PieceFault {
    /// The disk failed to read.
    #[error("the disk failed to read")]
    ReadFault,
    /// The bytes in the file are those of another content.
    #[error("the content {wanted:?} has the bytes of {found:?}")]
    BadBytes { wanted: Id, found: Id },
}
