//! What came of a planned landing.
use object_id::Id;
use repo_calls::{Landed, Refusal};

/// What came of a planned landing.
#[derive(Debug, PartialEq, Drop)]
pub enum Exchanged {
    /// The stack was landed.
    Landed(Landed),
    /// The bookmark has this head by now, and not the planned one. Nothing was changed.
    HeadMoved { found: Option<Id> },
    /// The disk failed earlier, the policy that is held by now doesn't allow the landing, the record is too long or doesn't
    /// fit, or another changeset has the id of a new one.
    Refused(Refusal),
}
