//! Which device call of a seal failed.

/// The device call at which a seal was cut off. In the first two the gate wasn't opened, so a crash leaves the records of
/// before alone. In the other two the group is on the disk behind the gate, so a crash leaves all of it or nothing of it.
#[derive(Clone, Copy, Debug, PartialEq, Eq)]
pub enum Cut {
    /// The write of the group.
    Write,
    /// The sync behind it.
    Sync,
    /// The write that opens the gate.
    Open,
    /// The last sync.
    Seal,
}
