//! Why a load ended early.
ghost use Rattle.std.specs.Prelude.{◌≡◌};
ghost use Rattle.run_gen.specs.declared.fault.LoadFault.TheVariants.{Memory};

use std::alloc::AllocError;
use thiserror::Error;

/// Why a load ended early.
#[derive(Clone, Copy, Debug, PartialEq, Eq, Error)]
pub enum LoadFault {
    /// A call of a client was refused.
    #[error("a call was refused")]
    Refused,
    /// Memory ran out.
    #[error("memory ran out")]
    Memory,
}

impl From<AllocError> for LoadFault {
    ghost from_gives = { λ _ e. e ≡ Memory };

    fn from(_e: AllocError) -> LoadFault {
        LoadFault::Memory
    }
}
