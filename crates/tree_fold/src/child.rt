//! What stands in a directory.
use crate::file::File;

/// What stands in a directory under one name.
#[derive(Debug, Drop)]
pub struct Child {
    /// One element of a path: 1 to 255 bytes.
    pub name: String,
    /// The file, or `None` for a directory.
    pub file: Option<File>,
}
