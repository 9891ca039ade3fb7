//! Changes, and what they are granted.
use object_id::Id;
use repo_path::BookName;

/// A change that is asked for.
#[derive(Clone, Copy, Debug)]
pub enum Ask<'a> {
    /// Stores a content of at most 1,048,576 bytes.
    PutContent(&'a [u8]),
    /// Stores contents that are joined: 1 to 64 ids of stored contents, of 32 bytes each, in the order of the contents.
    PutWhole(&'a [u8]),
    /// Stores the changeset that these bytes encode, at most 1,048,576.
    PutChangeset(&'a [u8]),
    /// Moves a bookmark for a caller, if its head is `from`. `None` stands for no bookmark.
    SetBookmark {
        caller: &'a BookName,
        name: &'a BookName,
        from: Option<Id>,
        to: Option<Id>,
    },
    /// Lands a draft on a bookmark for a caller: what follows the root in the draft's chain is put onto the bookmark's head.
    /// The moment is the new date of what is of the second version, in seconds since 1970-01-01 00:00 UTC.
    Land {
        caller: &'a BookName,
        name: &'a BookName,
        draft: Id,
        moment: u64,
    },
    /// Sets for a caller who may land, move bookmarks and set a policy from here on: a text of rules, at most 65,536 bytes.
    SetPolicy {
        caller: &'a BookName,
        text: &'a [u8],
    },
}

/// A stack that was landed: the head before, and the ids of the new changesets, of which the last is the head.
#[derive(Debug, PartialEq, Drop)]
pub struct Landed {
    pub old: Id,
    pub ids: Vec<Id>,
}

/// What a change is granted.
#[derive(Debug, PartialEq, Drop)]
pub enum Granted {
    /// The content of this id is stored.
    Content(Id),
    /// The joined contents are stored; their id, and how many bytes they are.
    Whole { id: Id, size: u64 },
    /// The changeset of this id is known.
    Changeset(Id),
    /// The bookmark has the head that was asked for.
    Bookmark,
    /// The stack was landed.
    Landing(Landed),
    /// The policy is held; the number of its entry in the log, from 0.
    Policy { number: u64 },
}
