//! What a command came to.
use crate::Status;

/// What a command came to: its status, and the file that it opened.
#[derive(Drop)]
pub struct Came<D> {
    pub status: Status,
    pub disk: Option<D>,
}
