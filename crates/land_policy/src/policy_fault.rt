//! What is wrong with a text that is no policy.
ghost use Rattle.std.specs.Prelude.{◌≡◌};
ghost use Rattle.land_policy.specs.declared.policy_fault.PolicyFault.TheVariants.{Memory};

use std::alloc::{AllocError, AllocFailed};
use thiserror::Error;

/// Why a text gave no rules.
#[derive(Clone, Copy, Debug, PartialEq, Eq, Error)]
pub enum PolicyFault {
    /// The text is no policy.
    #[error("no policy: wrong in line {line}")]
    BadPolicy {
        /// The number, from 0, of the first line that breaks the grammar. 1,000 for a line after the last that is allowed,
        /// and 0 for a text that is empty or too long.
        line: usize,
    },
    /// Memory ran out.
    #[error("memory ran out")]
    Memory,
}

impl From<AllocError> for PolicyFault {
    ghost from_gives = { λ _ e. e ≡ Memory };

    fn from(_e: AllocError) -> PolicyFault {
        PolicyFault::Memory
    }
}

impl<T: Drop> From<AllocFailed<T>> for PolicyFault {
    ghost from_gives = { λ _ e. e ≡ Memory };

    fn from(_e: AllocFailed<T>) -> PolicyFault {
        PolicyFault::Memory
    }
}
