//! Why a file isn't opened.
use repo_journal::ScanFault;
use thiserror::Error;

/// A file wasn't opened.
#[derive(Clone, Copy, Debug, PartialEq, Eq, Error)]
pub enum OpenFault {
    /// The file has less than 17 bytes, or doesn't begin with a repository's mark.
    #[error("not a repository")]
    NotARepository,
    /// The file is damaged: the place of the first bad gate, or that of a capacity out of its limits.
    #[error("damaged at {at}")]
    Damaged { at: u64 },
    /// A call of the disk failed.
    #[error("the disk failed")]
    DiskFault,
    /// No memory was left.
    #[error("no memory")]
    Memory,
}

impl From<ScanFault> for OpenFault {
    ghost use Rattle.std.specs.Prelude.{◌≡◌};
    ghost use Rattle.recovery.specs.Faults.{fault_of};

    ghost from_gives = { λ e fault. fault ≡ fault_of e };

    fn from(e: ScanFault) -> OpenFault {
        match e {
            ScanFault::DiskFault => OpenFault::DiskFault,
            ScanFault::Memory => OpenFault::Memory,
        }
    }
}
