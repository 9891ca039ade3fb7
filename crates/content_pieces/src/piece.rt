//! A content that stands in the journal.
use object_id::Id;

/// A content of the journal by its id: where its bytes stand, in the file or where they wait, and how many they are.
#[derive(Clone, Copy, Debug, PartialEq, Eq)]
pub struct Piece {
    pub id: Id,
    pub at: u64,
    pub length: u64,
}
