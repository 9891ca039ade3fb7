//! Why a payload wasn't entered.
ghost use Rattle.std.specs.Prelude.{◌≡◌};
ghost use Rattle.recovery.specs.ReplayFaults.{decode_fault, piece_fault, refusal_fault};
ghost use Rattle.recovery.specs.declared.replay_fault.ReplayFault.TheVariants.{Memory};

use content_pieces::PieceFault;
use repo_calls::Refusal;
use repo_events::PayloadFault;
use std::alloc::AllocError;
use thiserror::Error;

/// Why a payload wasn't entered.
#[derive(Clone, Copy, Debug, PartialEq, Eq, Error)]
pub enum ReplayFault {
    /// It isn't the payload of the entry that comes next.
    #[error("not the payload of an entry that comes next")]
    BadPayload,
    /// A call of the disk failed.
    #[error("the disk failed")]
    DiskFault,
    /// Memory ran out.
    #[error("memory ran out")]
    Memory,
}

impl From<AllocError> for ReplayFault {
    ghost from_gives = { λ _ fault. fault ≡ Memory };

    fn from(_e: AllocError) -> ReplayFault {
        ReplayFault::Memory
    }
}

impl From<Refusal> for ReplayFault {
    ghost from_gives = { λ e fault. fault ≡ refusal_fault e };

    fn from(e: Refusal) -> ReplayFault {
        match e {
            Refusal::Memory => ReplayFault::Memory,
            _ => ReplayFault::BadPayload,
        }
    }
}

impl From<PayloadFault> for ReplayFault {
    ghost from_gives = { λ e fault. fault ≡ decode_fault e };

    fn from(e: PayloadFault) -> ReplayFault {
        match e {
            PayloadFault::BadPayload { at: _ } => ReplayFault::BadPayload,
            PayloadFault::Memory => ReplayFault::Memory,
        }
    }
}

impl From<PieceFault> for ReplayFault {
    ghost from_gives = { λ e fault. fault ≡ piece_fault e };

    fn from(e: PieceFault) -> ReplayFault {
        match e {
            PieceFault::ReadFault => ReplayFault::DiskFault,
            PieceFault::BadBytes { .. } => ReplayFault::BadPayload,
        }
    }
}
