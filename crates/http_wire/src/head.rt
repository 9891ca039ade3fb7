//! One whole request head: its parse, and the tests that it has to pass.
ghost use Rattle.std.specs.Prelude.{◌≡◌, ◌*◌, ◌≤◌, length, vec_capacity, vec_len, bytes_eq, codes, All, IfSome, IsNone, ◌&&◌};
ghost use Rattle.httparse.specs.Spans.{IsHeaderWithin, IsRequestOf, IsRequestWithin, IsWithin};
ghost use Rattle.http_model.specs.Head.{IsNoHead, path_of, stores_bodies};
ghost use Rattle.http_wire.specs.Judging.{Judges, seen_head};

use crate::header_fields::{
    CallerText, Length, asks_to_close, caller_given, has_header, length_given,
};
use crate::texts::{MOST_BODY, path_of};
use http_model::HeadRefusal;
use httparse::Status;
use httparse::spans::{EMPTY_HEADER_SPAN, HeaderSpan, RequestSpans, parse_request};

/// The most bytes of a head.
pub(crate) const MOST_HEAD: usize = 16_384;

/// Room for the headers of every head of that length: each takes at least three bytes.
pub(crate) const HEADER_ROOM: usize = 5_462;

/// The most headers of a head.
const MOST_HEADERS: usize = 64;

/// Has room for the headers of each head of so many bytes, of the room that is reserved. It takes no memory.
pub(crate) fn make_room(headers: &mut Vec<HeaderSpan>, count: usize)
    requires head { count ≤ MOST_HEAD }
    requires reserved { HEADER_ROOM ≤ vec_capacity headers.old }
    ensures room { count ≤ 3 * vec_len headers.new }
    ensures reserved { HEADER_ROOM ≤ vec_capacity headers.new }
{
    let wanted = count / 3 + 1;
    'filling: while headers.len() < wanted {
        headers.push_reserved(EMPTY_HEADER_SPAN);
    }
}

/// Where the parts of the head are, if the bytes are one whole head of the grammar.
pub(crate) fn parse(bytes: &[u8], headers: &mut [HeaderSpan]) -> Option<RequestSpans>
    requires room { length bytes.now ≤ 3 * length headers.old }
    ensures within { IfSome result (λ spans. IsRequestWithin bytes.now headers.new spans) }
    ensures head { IfSome result (λ spans. IsRequestOf bytes.now headers.new spans) }
    ensures whole { IfSome result (λ spans. spans.len ≡ length bytes.now) }
    ensures none { IsNone result → IsNoHead bytes.now }
{
    match parse_request(bytes, headers) {
        Ok(Status::Complete(spans)) if spans.len == bytes.len() => Some(spans),
        _ => None,
    }
}

/// What a head that passes the tests asks for.
#[derive(Clone, Copy, Debug, PartialEq, Eq)]
pub(crate) struct Framing<'a> {
    /// The bytes of its body.
    pub body: usize,
    /// Who asks.
    pub caller: CallerText<'a>,
    /// Whether the session ends after it.
    pub close: bool,
}

fn stores_bodies(path: &[u8]) -> bool
    ensures { result ≡ stores_bodies path.now }
{
    path == b"/content".as_slice()
        || path == b"/changeset".as_slice()
        || path == b"/whole".as_slice()
        || path == b"/policy".as_slice()
}

fn stores_its_body(method: &[u8], target: &[u8]) -> bool
    ensures { result ≡ (bytes_eq method.now (codes "PUT") && stores_bodies (path_of target.now)) }
{
    method == b"PUT".as_slice() && stores_bodies(path_of(target))
}

/// The first test that the head fails, or what it asks for.
pub(crate) fn judge<'a>(
    bytes: &'a [u8],
    spans: &RequestSpans,
    headers: &[HeaderSpan],
) -> Result<Framing<'a>, HeadRefusal>
    requires method { IsWithin (length bytes.now) spans.now.method }
    requires target { IsWithin (length bytes.now) spans.now.path }
    requires headers { All (IsHeaderWithin (length bytes.now)) headers.now }
    ensures { Judges (seen_head bytes.now spans.now headers.now) result }
{
    if headers.len() > MOST_HEADERS {
        return Err(HeadRefusal::TooManyHeaders);
    }
    if has_header(bytes, headers, b"transfer-encoding") {
        return Err(HeadRefusal::TransferEncoding);
    }
    let body = match length_given(bytes, headers) {
        Length::Bad => return Err(HeadRefusal::BadLength),
        Length::Absent if stores_its_body(spans.method.of(bytes), spans.path.of(bytes)) => {
            return Err(HeadRefusal::NoLength);
        }
        Length::Absent => 0,
        Length::Given(n) if n > MOST_BODY => return Err(HeadRefusal::BodyTooLarge),
        Length::Given(n) => n,
    };
    let close = spans.version == 0 || asks_to_close(bytes, headers);
    Ok(Framing {
        body,
        caller: caller_given(bytes, headers),
        close,
    })
}
