//! Why a payload gave no entry.

use thiserror::Error;

/// Why a payload gave no entry.
#[derive(Clone, Copy, Debug, PartialEq, Eq, Error)]
pub enum PayloadFault {
    /// The bytes are no payload.
    #[error("no payload: wrong at byte {at}")]
    BadPayload {
        /// The place of the first byte of the first field that is cut off or breaks its rule, or of the first byte after
        /// the last field; `MOST_PAYLOAD` where the payload is longer.
        at: u64,
    },
    /// Memory ran out.
    #[error("memory ran out")]
    Memory,
}
