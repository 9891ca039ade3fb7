//! Pages of the log.
use object_id::Id;
use repo_path::BookName;

/// What the log tells of one stored entry.
#[derive(Debug, PartialEq, Drop)]
pub enum LogEntry {
    /// A content was stored; its length in bytes.
    Content {
        id: Id,
        size: u64,
    },
    /// Contents were joined, in this order; their length in bytes together.
    Whole {
        id: Id,
        size: u64,
        parts: Vec<Id>,
    },
    /// A changeset was uploaded.
    Changeset {
        id: Id,
    },
    /// A bookmark was made, moved or deleted.
    Bookmark {
        name: BookName,
        from: Option<Id>,
        to: Option<Id>,
        /// Who moved it, told where a policy was held.
        caller: Option<BookName>,
    },
    /// A draft was landed: the head before, and the new changesets in the order of the stack.
    Landing {
        name: BookName,
        old: Id,
        draft: Id,
        /// When it was landed, told where a changeset is of the second version.
        moment: Option<u64>,
        ids: Vec<Id>,
        /// Who landed it, told where a policy was held.
        caller: Option<BookName>,
    },
    /// A policy was set, and by whom; how many rules it has.
    Policy {
        caller: BookName,
        rules: u64,
    },
}

/// At most 100 stored entries of the log, and how many there are in all.
#[derive(Debug, PartialEq, Drop)]
pub struct LogPage {
    pub entries: Vec<LogEntry>,
    pub total: u64,
}
