//! What a journal keeps of the moment at which it was opened.

/// The disk's moment at the opening, how many entries the history had then, and how many calls of
/// the disk had failed.
#[derive(Clone, Copy, Debug, PartialEq, Eq)]
pub struct Opening {
    pub moment: u64,
    pub length: u64,
    pub faults: u64,
}
