//! Why a part that is read into memory of its own wasn't read.
ghost use Rattle.std.specs.Prelude.{◌≡◌};
ghost use Rattle.byte_fields.specs.declared.field_fault.FieldFault.TheVariants.{Bad, Memory};

use crate::bad_field::BadField;
use std::alloc::{AllocError, AllocFailed};
use thiserror::Error;

/// Why a part wasn't read.
#[derive(Clone, Copy, Debug, PartialEq, Eq, Error)]
pub enum FieldFault {
    /// A field of it is cut off or breaks its rule.
    #[error("a field that begins {left} bytes before the end is cut off or breaks its rule")]
    Bad {
        /// How many bytes were left where the field begins.
        left: usize,
    },
    /// Memory ran out.
    #[error("memory ran out")]
    Memory,
}

impl From<BadField> for FieldFault {
    ghost from_gives = { λ f e. e ≡ Bad f.left };

    fn from(fault: BadField) -> FieldFault {
        FieldFault::Bad { left: fault.left }
    }
}

impl From<AllocError> for FieldFault {
    ghost from_gives = { λ _ e. e ≡ Memory };

    fn from(_e: AllocError) -> FieldFault {
        FieldFault::Memory
    }
}

impl<T: Drop> From<AllocFailed<T>> for FieldFault {
    ghost from_gives = { λ _ e. e ≡ Memory };

    fn from(_e: AllocFailed<T>) -> FieldFault {
        FieldFault::Memory
    }
}
