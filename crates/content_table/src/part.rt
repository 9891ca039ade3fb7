//! Contents that are to be joined.
use crate::place::Place;
use object_id::Id;

/// A content that is to be joined: its id, and where its bytes stand.
#[derive(Clone, Copy, Debug, PartialEq, Eq)]
pub struct Part {
    pub id: Id,
    pub place: Place,
}
