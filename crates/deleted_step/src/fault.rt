//! Why nothing was derived.
ghost use Rattle.std.specs.Prelude.{◌≡◌};
ghost use Rattle.deleted_step.specs.declared.fault.StepFault.TheVariants.{Memory};

use object_id::Id;
use std::alloc::{AllocError, AllocFailed};
use thiserror::Error;

/// Why nothing was derived.
#[derive(Clone, Copy, Debug, PartialEq, Eq, Error)]
pub enum StepFault {
    /// A node leads to this id, and there is no deleted node of this id.
    #[error("no deleted node of this id is there")]
    NoNode { id: Id },
    /// Memory ran out.
    #[error("memory ran out")]
    Memory,
}

impl From<AllocError> for StepFault {
    ghost from_gives = { λ _ e. e ≡ Memory };

    fn from(_e: AllocError) -> StepFault {
        StepFault::Memory
    }
}

impl<T: Drop> From<AllocFailed<T>> for StepFault {
    ghost from_gives = { λ _ e. e ≡ Memory };

    fn from(_e: AllocFailed<T>) -> StepFault {
        StepFault::Memory
    }
}
