//! Why a node could not be put in.
ghost use Rattle.std.specs.Prelude.{◌≡◌};
ghost use Rattle.node_table.specs.declared.fault.TableFault.TheVariants.{Memory};

use object_id::Id;
use std::alloc::{AllocError, AllocFailed};
use thiserror::Error;

/// Why nodes could not be put in. The table is as it was.
#[derive(Clone, Copy, Debug, PartialEq, Eq, Error)]
pub enum TableFault {
    /// Two different nodes have this id.
    #[error("two different nodes have one id")]
    Collision { id: Id },
    /// Memory ran out.
    #[error("no memory")]
    Memory,
}

impl From<AllocError> for TableFault {
    ghost from_gives = { λ _ e. e ≡ Memory };

    fn from(_e: AllocError) -> TableFault {
        TableFault::Memory
    }
}

impl<T: Drop> From<AllocFailed<T>> for TableFault {
    ghost from_gives = { λ _ e. e ≡ Memory };

    fn from(_e: AllocFailed<T>) -> TableFault {
        TableFault::Memory
    }
}
