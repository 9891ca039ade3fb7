//! How following a server ends.

/// How following a server ended. An entry's number is its place in the log, from 0.
#[derive(Clone, Copy, Debug, PartialEq, Eq)]
pub enum FollowEnd {
    /// All that the server has stored is stored.
    Same,
    /// The link failed.
    LinkFault,
    /// What the server sent for the entry of this number is no reply to the question.
    BadReply { number: u64 },
    /// The entry of this number is another one here, or the server has only so many entries.
    Differs { number: u64 },
    /// The entry of this number doesn't fit the file.
    Full { number: u64 },
    /// The disk failed.
    DiskFault,
    /// The file has the first version.
    OldFormat,
    /// Memory ran out.
    Memory,
}

/// How far a server was followed.
#[derive(Clone, Copy, Debug, PartialEq, Eq)]
pub struct Followed {
    /// How many entries are sealed on the disk.
    pub entries: u64,
    pub end: FollowEnd,
}
