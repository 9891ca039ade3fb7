//! Why no message can begin at a place of a stream.
ghost use Rattle.std.specs.Prelude.{◌≡◌};

use http::StatusCode;
use thiserror::Error;

/// What is wrong with the head that stands in a message's place. Each ends the session.
#[derive(Clone, Copy, Debug, PartialEq, Eq, Error)]
pub enum HeadRefusal {
    /// The first 16,384 bytes hold no whole head.
    #[error("the first 16,384 bytes hold no whole head")]
    HeadTooLarge,
    /// The bytes are no request head of HTTP/1.0 or HTTP/1.1 (RFC 9112).
    #[error("these bytes are no request head")]
    BadHead,
    /// There are more than 64 headers.
    #[error("there are more than 64 headers")]
    TooManyHeaders,
    /// There is a `Transfer-Encoding`, so the body has no length that is known before it.
    #[error("there is a Transfer-Encoding")]
    TransferEncoding,
    /// There are several `Content-Length`, or the one is no decimal number.
    #[error("the Content-Length isn't one decimal number")]
    BadLength,
    /// A request that stores its body has no `Content-Length`.
    #[error("a body that is stored has no Content-Length")]
    NoLength,
    /// The body is longer than 1,048,576 bytes.
    #[error("the body is longer than 1,048,576 bytes")]
    BodyTooLarge,
}

impl HeadRefusal {
    ghost use Rattle.http_model.specs.Refusals.{status_of, code_of};

    /// The status of the response (RFC 9110, and RFC 6585 for 431).
    pub fn status(self) -> StatusCode
        ensures { result ≡ status_of self }
    {
        match self {
            HeadRefusal::HeadTooLarge | HeadRefusal::TooManyHeaders => {
                StatusCode::REQUEST_HEADER_FIELDS_TOO_LARGE
            }
            HeadRefusal::BadHead | HeadRefusal::BadLength => StatusCode::BAD_REQUEST,
            HeadRefusal::TransferEncoding => StatusCode::NOT_IMPLEMENTED,
            HeadRefusal::NoLength => StatusCode::LENGTH_REQUIRED,
            HeadRefusal::BodyTooLarge => StatusCode::PAYLOAD_TOO_LARGE,
        }
    }

    /// The word that the response names it by.
    pub fn code(self) -> &'static str
        ensures { result.now ≡ code_of self }
    {
        match self {
            HeadRefusal::HeadTooLarge => "head-too-large",
            HeadRefusal::BadHead => "bad-head",
            HeadRefusal::TooManyHeaders => "too-many-headers",
            HeadRefusal::TransferEncoding => "transfer-encoding",
            HeadRefusal::BadLength => "bad-length",
            HeadRefusal::NoLength => "no-length",
            HeadRefusal::BodyTooLarge => "body-too-large",
        }
    }
}
