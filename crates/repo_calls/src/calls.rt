//! Reads of a repository, what they see, and why a call isn't answered.
ghost use Rattle.std.specs.Prelude.{◌≡◌};
ghost use Rattle.repo_calls.specs.declared.calls.AskFault.TheVariants.{Memory};

use crate::{CopiedPath, LogPage, Refusal};
use object_id::Id;
use repo_path::{BookName, RepoPath};
use std::alloc::{AllocError, AllocFailed};
use thiserror::Error;

/// A read.
#[derive(Clone, Copy, Debug)]
pub enum Question<'a> {
    /// The head of a bookmark.
    Head(&'a BookName),
    /// The bytes of a content.
    Content(Id),
    /// The encoding of a changeset.
    Changeset(Id),
    /// A page of the log, from this number on.
    Log(u64),
    /// The fsnode of a directory in a changeset's tree, of its root where there is no path.
    Fsnode(Id, Option<&'a RepoPath>),
    /// The unode of a file or a directory in a changeset's tree, of its root where there is no path.
    Unode(Id, Option<&'a RepoPath>),
    /// The history of a file in a changeset's tree.
    History(Id, &'a RepoPath),
    /// What a changeset sets as copies.
    Copies(Id),
    /// The changesets of a chain that set a path, or have another file there than their first parent.
    PathLog(Id, &'a RepoPath),
    /// The deleted node of a path in a changeset's tree, of its root where there is no path.
    Deleted(Id, Option<&'a RepoPath>),
    /// The text of the policy that is held, or of the one that has this number in the log.
    Policy(Option<u64>),
}

/// What a read sees.
#[derive(Debug, PartialEq, Drop)]
pub enum Seen {
    Head(Option<Id>),
    Bytes(Vec<u8>),
    Log(LogPage),
    /// Changesets, the newest first.
    Ids(Vec<Id>),
    /// What a changeset sets as copies, by rising paths.
    Copies(Vec<CopiedPath>),
}

/// Why a change isn't answered by what it is granted.
#[derive(Debug, PartialEq, Drop, Error)]
pub enum ChangeFault {
    /// It was refused, and left the history and the file as they were.
    #[error("refused: {0}")]
    Refused(Refusal),
    /// A call of the disk failed. The record may be in the file or not, and nothing more is stored.
    #[error("the disk failed")]
    DiskFault,
    /// The disk failed to read a content that was to be joined.
    #[error("the disk failed to read")]
    ReadFault,
    /// The bytes in the file of a content that was to be joined are those of another one.
    #[error("the content {wanted:?} has the bytes of {found:?}")]
    BadBytes { wanted: Id, found: Id },
}

/// Why a read sees nothing.
#[derive(Clone, Copy, Debug, PartialEq, Eq, Drop, Error)]
pub enum AskFault {
    /// No content has this id.
    #[error("no content {id:?}")]
    NoContent { id: Id },
    /// No changeset has this id.
    #[error("no changeset {id:?}")]
    NoChangeset { id: Id },
    /// Nothing is at this path.
    #[error("nothing is at this path")]
    NoPath,
    /// A file is at the path where a directory is wanted.
    #[error("no directory is at this path")]
    NotADir,
    /// A directory is at the path where a file is wanted.
    #[error("no file is at this path")]
    NotAFile,
    /// No policy is held, or the log has none under this number.
    #[error("no policy")]
    NoPolicy,
    /// Two different nodes have this id.
    #[error("two nodes have the id {id:?}")]
    Collision { id: Id },
    /// The disk failed to read.
    #[error("the disk failed to read")]
    ReadFault,
    /// The bytes in the file are those of another content.
    #[error("the content {wanted:?} has the bytes of {found:?}")]
    BadBytes { wanted: Id, found: Id },
    /// Memory ran out.
    #[error("out of memory")]
    Memory,
}

impl From<AllocError> for AskFault {
    ghost from_gives = { λ _ e. e ≡ Memory };

    fn from(_e: AllocError) -> AskFault {
        AskFault::Memory
    }
}

impl<T: Drop> From<AllocFailed<T>> for AskFault {
    ghost from_gives = { λ _ e. e ≡ Memory };

    fn from(_e: AllocFailed<T>) -> AskFault {
        AskFault::Memory
    }
}
