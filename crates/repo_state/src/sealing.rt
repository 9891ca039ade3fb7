//! What comes of a step of a seal.

use blob_disk::Flush;

/// What comes of a step of a seal.
#[derive(Drop)]
pub enum Sealing<F: Flush> {
    /// What was asked for is sealed.
    Sealed,
    /// A group is under way, and its sync is made elsewhere. Nothing was done.
    UnderWay,
    /// A step was made. This sync is to be run, where nobody waits for the repository, and to be brought to the next step.
    Syncs(F),
}
