//! Places in the file.

/// Where the bytes of a content stand in the file: the first byte's place, and how many they are.
#[derive(Clone, Copy, Debug, PartialEq, Eq)]
pub struct Place {
    pub at: u64,
    pub length: u64,
}
