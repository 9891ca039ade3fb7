//! Why bytes gave no changeset.
ghost use Rattle.std.specs.Prelude.{◌≡◌};
ghost use Rattle.bonsai.specs.declared.decode_fault.DecodeFault.TheVariants.{Memory};

use repo_path::RepoPath;
use std::alloc::AllocError;
use thiserror::Error;

/// Why bytes gave no changeset.
#[derive(Debug, Drop, Error)]
pub enum DecodeFault {
    /// There are more than `LONGEST_ENCODING` bytes, and none was looked at.
    #[error("{length} bytes are too many for a changeset")]
    TooLong {
        /// How many there are.
        length: usize,
    },
    /// The bytes are no encoding.
    #[error("no changeset: wrong at byte {at}")]
    BadEncoding {
        /// The place of the first byte of the first field that is cut off or breaks its rule, or of the first byte after
        /// the last field.
        at: usize,
    },
    /// All fields are in order, and a set path lies under another set path.
    #[error("the path {long} that is set lies under the path {short} that is set")]
    SelfConflict {
        /// The shortest path above the other.
        short: RepoPath,
        /// The first set path that lies under any.
        long: RepoPath,
    },
    /// Memory ran out.
    #[error("memory ran out")]
    Memory,
}

impl From<AllocError> for DecodeFault {
    ghost from_gives = { λ _ e. e ≡ Memory };

    fn from(_e: AllocError) -> DecodeFault {
        DecodeFault::Memory
    }
}
