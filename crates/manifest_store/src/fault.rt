//! Why a manifest could not be read.
ghost use Rattle.std.specs.Prelude.{◌≡◌};
ghost use Rattle.manifest_store.specs.declared.fault.ManifestFault.TheVariants.{Memory};

use std::alloc::{AllocError, AllocFailed};
use thiserror::Error;

/// Why a manifest, or the history of a file, could not be read.
#[derive(Clone, Copy, Debug, PartialEq, Eq, Error)]
pub enum ManifestFault {
    /// Neither a file nor a directory is at the path.
    #[error("nothing is at the path")]
    NoPath,
    /// A file is at the path of a directory.
    #[error("no directory is at the path")]
    NotADir,
    /// A directory is at the path of a file.
    #[error("no file is at the path")]
    NotAFile,
    /// Memory ran out.
    #[error("memory ran out")]
    Memory,
}

impl From<AllocError> for ManifestFault {
    ghost from_gives = { λ _ e. e ≡ Memory };

    fn from(_e: AllocError) -> ManifestFault {
        ManifestFault::Memory
    }
}

impl<T: Drop> From<AllocFailed<T>> for ManifestFault {
    ghost from_gives = { λ _ e. e ≡ Memory };

    fn from(_e: AllocFailed<T>) -> ManifestFault {
        ManifestFault::Memory
    }
}
