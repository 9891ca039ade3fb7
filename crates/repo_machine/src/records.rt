//! The entries as the machine keeps them. A changeset stands once, in the store, and an entry names it by its number. What all
//! but contents and changesets say stands in memory of its own, since those are few: no entry takes more than a content's.

use object_id::Id;
use repo_events::Move;
use repo_path::BookName;
use std::mem::size_of;
use std::sync::Arc;

/// Contents that were joined to one of this id and length in bytes, in this order.
#[derive(Debug, Drop)]
pub(crate) struct WholeRecord {
    pub(crate) id: Id,
    pub(crate) length: u64,
    pub(crate) parts: Arc<Vec<Id>>,
}

/// A draft that was landed on a bookmark.
#[derive(Debug, Drop)]
pub(crate) struct LandRecord {
    pub(crate) name: BookName,
    /// The head before.
    pub(crate) old: Id,
    pub(crate) draft: Id,
    /// The numbers of the rewritten changesets, of which the last is the head after.
    pub(crate) numbers: Vec<u32>,
    /// When it was landed, told where one of them is of the second version.
    pub(crate) moment: Option<u64>,
    /// Who landed it, told where a policy was held.
    pub(crate) caller: Option<BookName>,
}

/// Who may land and move bookmarks from here on, and who set it.
#[derive(Debug, Drop)]
pub(crate) struct PolicyRecord {
    pub(crate) caller: BookName,
    pub(crate) text: Vec<u8>,
}

/// What an entry says.
#[derive(Debug, Drop)]
pub(crate) enum Record {
    /// A content of this id and length in bytes was stored.
    Content { id: Id, length: u32 },
    /// Contents were joined.
    Whole(Box<WholeRecord>),
    /// The changeset of this number was uploaded.
    Change { number: u32 },
    /// A bookmark was made, moved or deleted.
    Book(Box<Move>),
    /// A stack was landed.
    Land(Box<LandRecord>),
    /// Who may land and move bookmarks from here on was set, and by whom.
    Policy(Box<PolicyRecord>),
    /// The disk failed. After a breaking fault nothing is stored.
    Fault { breaking: bool },
}

/// An entry: the number of the seat that made it, 0 where it was recovered, and what it says.
#[derive(Debug, Drop)]
pub(crate) struct Entry {
    pub(crate) who: u64,
    pub(crate) record: Record,
}

// There are millions of them.
const _: () = prove!(size_of::<Entry>() == 48);
