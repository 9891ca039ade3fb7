//! Why a call of the journal fails.
use thiserror::Error;

/// An append was refused or failed.
#[derive(Clone, Copy, Debug, PartialEq, Eq, Error)]
pub enum AppendFault {
    /// The record doesn't fit: the file's size in bytes, and the length of the payload.
    #[error("no room for a payload of {length} bytes behind {size}")]
    Full { size: u64, length: u64 },
    /// A call of the disk failed. The record may be there or not.
    #[error("the disk failed")]
    DiskFault,
}

/// A repository wasn't made.
#[derive(Clone, Copy, Debug, PartialEq, Eq, Error)]
pub enum InitFault {
    /// The file has bytes already: how many.
    #[error("the file has {size} bytes already")]
    Exists { size: u64 },
    /// A call of the disk failed. Nothing is promised of the file.
    #[error("the disk failed")]
    DiskFault,
}

/// The records weren't gone over.
#[derive(Clone, Copy, Debug, PartialEq, Eq, Error)]
pub enum ScanFault {
    /// A call of the disk failed.
    #[error("the disk failed")]
    DiskFault,
    /// No memory was left.
    #[error("no memory")]
    Memory,
}

/// A call of the disk failed.
#[derive(Clone, Copy, Debug, PartialEq, Eq, Error)]
#[error("the disk failed")]
pub struct DiskFault;
