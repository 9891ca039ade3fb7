//! What became of an entry of a server's log.
ghost use Rattle.std.specs.Prelude.{◌≡◌};
ghost use Rattle.follower.specs.Replaying.{replayed_of};

use repo_calls::{ChangeFault, Refusal};

/// What became of an entry.
#[derive(Clone, Copy, Debug, PartialEq, Eq)]
pub(crate) enum Replayed {
    /// It was made, and is sealed.
    Same,
    /// Another entry came of it, or none.
    Differs,
    /// There is no room for it.
    Full,
    DiskFault,
    Memory,
}

/// What became of an entry that wasn't made.
pub(crate) fn refused_as(fault: &ChangeFault) -> Replayed
    ensures { result ≡ replayed_of fault.now }
{
    match fault {
        ChangeFault::Refused(Refusal::Full { .. }) => Replayed::Full,
        ChangeFault::Refused(Refusal::Memory) => Replayed::Memory,
        ChangeFault::Refused(_) | ChangeFault::BadBytes { .. } => Replayed::Differs,
        ChangeFault::DiskFault | ChangeFault::ReadFault => Replayed::DiskFault,
    }
}
