//! A group whose seal was begun and isn't done.

use repo_journal::At;

/// A group of entries whose seal was begun and isn't done, or was cut off. It begins behind the sealed entries.
#[derive(Clone, Copy, Debug, PartialEq, Eq)]
pub struct Left {
    /// How many entries are stored up to its end.
    pub upto: u64,
    /// How far its seal has come.
    pub at: At,
}
