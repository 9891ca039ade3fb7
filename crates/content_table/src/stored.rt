//! What is stored under an id.
ghost use Rattle.std.specs.Prelude.{◌≡◌};
ghost use Rattle.content_table.specs.Table.{length_of};

use crate::place::Place;
use object_id::Id;
use std::sync::Arc;

/// A content that was joined of others: how many bytes it has, and the ids of the others, in order.
#[derive(Drop)]
pub struct Whole {
    pub length: u64,
    pub parts: Arc<Vec<Id>>,
}

/// What is stored under an id.
#[derive(Drop)]
pub enum Stored {
    /// A content whose bytes stand in the file.
    Content(Place),
    /// A content that was joined of others.
    Whole(Whole),
}

impl Stored {
    /// How many bytes it has.
    pub fn length(&self) -> u64
        ensures { result ≡ length_of self.now }
    {
        match self {
            Stored::Content(place) => place.length,
            Stored::Whole(whole) => whole.length,
        }
    }
}
