//! What a changeset tells.
use crate::edit::Edit;
use crate::moment::Date;
use crate::version::Version;
use object_id::Id;

/// What a changeset tells, whatever its parents and its date are.
#[derive(Debug, Drop)]
pub(crate) struct Told {
    /// 1 to `LONGEST_AUTHOR` bytes without 00 and 0A.
    pub(crate) author: String,
    /// At most `LONGEST_MESSAGE` bytes.
    pub(crate) message: String,
    /// At most `MOST_EDITS`, by rising paths.
    pub(crate) edits: Vec<Edit>,
}

/// The parts of a changeset.
#[derive(Clone, Copy)]
pub(crate) struct Parts<'a> {
    pub(crate) version: Version,
    pub(crate) parents: &'a [Id],
    pub(crate) date: Date,
    pub(crate) told: &'a Told,
}
