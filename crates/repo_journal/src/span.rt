//! Where a payload stands.

/// The place of a payload in the file, and its length in bytes.
#[derive(Clone, Copy, Debug, PartialEq, Eq)]
pub struct Span {
    pub at: u64,
    pub length: u32,
}
