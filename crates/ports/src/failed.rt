//! A call that the outside world let down.
use thiserror::Error;

/// The call failed, and its object's count of faults rose.
#[derive(Clone, Copy, Debug, PartialEq, Eq, Error)]
#[error("the call failed")]
pub struct Failed;
