//! Why no reply begins at the front of a link's bytes.
use thiserror::Error;

/// What is wrong with the bytes that stand in a reply's place.
#[derive(Clone, Copy, Debug, PartialEq, Eq, Error)]
pub enum ReplyFault {
    /// The bytes are no response head of HTTP/1.x (RFC 9112), whatever follows.
    #[error("these bytes are no response head")]
    BadHead,
    /// The first 16,384 bytes hold no whole head.
    #[error("the first 16,384 bytes hold no whole head")]
    HeadTooLarge,
    /// An empty line stands before the status line, or its version isn't HTTP/1.1.
    #[error("no status line of HTTP/1.1 stands first")]
    BadStart,
    /// There is a `Transfer-Encoding`, so the body has no length that is known before it.
    #[error("there is a Transfer-Encoding")]
    TransferEncoding,
    /// There isn't one `Content-Type`, or the one is neither `application/json` nor `application/octet-stream`.
    #[error("the Content-Type is of no kind that a server writes")]
    BadMedia,
    /// There isn't one `Content-Length`, or the one is no decimal number.
    #[error("the Content-Length isn't one decimal number")]
    BadLength,
    /// The body is longer than it may be.
    #[error("the body is longer than it may be")]
    BodyTooLarge,
}
