//! An id of bytes that come in pieces.
ghost use Rattle.std.specs.Prelude.{◌≡◌, ◌++◌, ℕ, List, []};
ghost use Rattle.sha2.specs.Sha256.{sha256};
ghost use Rattle.object_id.specs.Hashing.{HasFed};

use crate::id::Id;
use sha2::{Digest, Sha256};

/// The SHA-256 (FIPS 180-4) of the bytes that it is fed, one piece behind another.
#[derive(Drop)]
pub struct Hasher(Sha256);

impl Hasher {
    /// It was fed nothing.
    pub fn new() -> Hasher
        ensures { HasFed result [] }
    {
        Hasher(Sha256::new())
    }

    /// So many bytes more.
    pub fn feed(&mut self, bytes: &[u8])
        ensures { (fed : List ℕ) → HasFed self.old fed → HasFed self.new (fed ++ bytes.now) }
    {
        self.0.update(bytes);
    }

    /// The id of all that it was fed.
    pub fn id(self) -> Id
        ensures { (fed : List ℕ) → HasFed self fed → result ≡ sha256 fed }
    {
        Id::from_bytes(self.0.finalize())
    }
}
