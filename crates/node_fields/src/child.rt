//! Entries of directories.

use crate::name::Name;

/// An entry and its name.
#[derive(Debug, Drop)]
pub struct Child<E> {
    pub name: Name,
    pub entry: E,
}
