//! Why a node could not be read.

use thiserror::Error;

/// Why bytes are no node.
#[derive(Clone, Copy, Debug, PartialEq, Eq, Error)]
pub enum NodeFault {
    /// The first field that is cut off or breaks its rule, or what follows a whole node.
    #[error("no node: wrong at byte {at}")]
    BadNode {
        /// Its place in bytes from the start.
        at: usize,
    },
    /// Memory ran out.
    #[error("memory ran out")]
    Memory,
}
