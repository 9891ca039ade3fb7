//! What a cutter answers.
use crate::request::Request;
use http::StatusCode;
use http_model::HeadRefusal;

/// What stands first on the stream so far.
#[derive(Debug, Drop)]
pub enum Next {
    /// A whole request. It is consumed.
    Message(Request),
    /// A whole request that there was no memory to copy. It is consumed; its answer needs only these.
    Memory {
        /// Whether the session ends after it.
        close: bool,
        /// Whether the answer is a head alone.
        head_only: bool,
    },
    /// Less than a whole request, and no refusal.
    NeedMore,
    /// No request can begin here, whatever follows.
    Refused {
        /// The status of the answer.
        status: StatusCode,
        /// Its code.
        code: HeadRefusal,
    },
}
