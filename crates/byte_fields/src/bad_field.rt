//! What is wrong with a field.

use thiserror::Error;

/// A field that is cut off or breaks its rule.
#[derive(Clone, Copy, Debug, PartialEq, Eq, Error)]
#[error("a field that begins {left} bytes before the end is cut off or breaks its rule")]
pub struct BadField {
    /// How many bytes were left where the field begins.
    pub left: usize,
}
