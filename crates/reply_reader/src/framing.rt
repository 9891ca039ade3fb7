//! What a head that is in order says of its body.
ghost use Rattle.std.specs.Prelude.{◌≡◌, ◌≤◌, ◌&&◌, ◌==◌, length, map, get_or, All};
ghost use Rattle.httparse.specs.Spans.{IsHeaderWithin, header_bytes};
ghost use Rattle.reply_reader.specs.Heads.{Judges};

use crate::header_values::{MOST_BODY, Named, decimal, values_named};
use crate::media::{Media, media_named};
use crate::reply_fault::ReplyFault;
use httparse::spans::HeaderSpan;

/// What a head says of its body.
#[derive(Clone, Copy)]
pub(crate) struct Framing {
    pub media: Media,
    /// Its bytes.
    pub body: usize,
}

/// Whether a status line of HTTP/1.1 stands first.
fn starts_well(bytes: &[u8], minor: u8) -> bool
    ensures { result ≡ (get_or bytes.now 0 0 == 72 && minor == 1) }
{
    !bytes.is_empty() && bytes[0] == b'H' && minor == 1
}

/// Judges a head of this minor version and these headers.
pub(crate) fn frame(
    bytes: &[u8],
    minor: u8,
    headers: &[HeaderSpan],
    limit: usize,
) -> Result<Framing, ReplyFault>
    requires headers { All (IsHeaderWithin (length bytes.now)) headers.now }
    requires limit { limit ≤ MOST_BODY }
    ensures { Judges limit (get_or bytes.now 0 0) minor (map (header_bytes bytes.now) headers.now) result }
{
    if !starts_well(bytes, minor) {
        return Err(ReplyFault::BadStart);
    }
    let Named::Absent = values_named(bytes, headers, b"transfer-encoding") else {
        return Err(ReplyFault::TransferEncoding);
    };
    let Named::One(kind) = values_named(bytes, headers, b"content-type") else {
        return Err(ReplyFault::BadMedia);
    };
    let Some(media) = media_named(kind) else {
        return Err(ReplyFault::BadMedia);
    };
    let Named::One(digits) = values_named(bytes, headers, b"content-length") else {
        return Err(ReplyFault::BadLength);
    };
    match decimal(digits, limit) {
        None => Err(ReplyFault::BadLength),
        Some(body) if body > limit => Err(ReplyFault::BodyTooLarge),
        Some(body) => Ok(Framing { media, body }),
    }
}
