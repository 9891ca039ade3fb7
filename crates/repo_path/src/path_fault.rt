//! What is wrong with a text that is no path.
ghost use Rattle.std.specs.Prelude.{◌≡◌};
ghost use Rattle.repo_path.specs.declared.path_fault.PathFault.TheVariants.{Memory};

use std::alloc::AllocError;
use thiserror::Error;

/// Why a text gave no path.
#[derive(Clone, Copy, Debug, PartialEq, Eq, Error)]
pub enum PathFault {
    /// The text is no path.
    #[error("no path: wrong at byte {at}")]
    BadPath {
        /// 4,096 where the text is longer than that, else the place of the first element that breaks the rules of one.
        at: usize,
    },
    /// Memory ran out.
    #[error("memory ran out")]
    Memory,
}

impl From<AllocError> for PathFault {
    ghost from_gives = { λ _ e. e ≡ Memory };

    fn from(_e: AllocError) -> PathFault {
        PathFault::Memory
    }
}
