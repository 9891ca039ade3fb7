//! Why a file wasn't migrated.
use thiserror::Error;

/// A file wasn't migrated.
#[derive(Clone, Copy, Debug, PartialEq, Eq, Error)]
pub enum MigrateFault {
    /// The new file has bytes already: how many.
    #[error("the new file has {size} bytes already")]
    Exists { size: u64 },
    /// A call of the old file's disk failed.
    #[error("the disk of the old file failed")]
    OldFault,
    /// A call of the new file's disk failed. It is no repository, or it stands for the whole history.
    #[error("the disk of the new file failed")]
    NewFault,
}
