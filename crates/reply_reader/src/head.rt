//! The head of a reply.
ghost use Rattle.std.specs.Prelude.{◌≡◌, ◌≤◌, length, IfOk, IfErr, IfSome, IsNone};
ghost use Rattle.httparse.specs.Grammar.{HasNoResponse, NeverHasResponse, MayBecomeResponse};
ghost use Rattle.httparse.specs.Spans.{IsResponseOf, IsResponseWithin};
ghost use Rattle.reply_reader.specs.declared.reply_fault.ReplyFault.TheVariants.{BadHead};

use crate::reply_fault::ReplyFault;
use httparse::Status;
use httparse::spans::{HeaderSpan, ResponseSpans, parse_response};

/// The most bytes of a head.
pub(crate) const MOST_HEAD: usize = 16_384;

/// Room for the headers of every head that may be as long: each takes at least three bytes.
pub const HEADER_ROOM: usize = 5_462;

/// Where the parts of the head are that the bytes begin with, or None where it isn't whole yet.
pub(crate) fn parse(
    bytes: &[u8],
    headers: &mut [HeaderSpan],
) -> Result<Option<ResponseSpans>, ReplyFault>
    requires room { length headers.old ≡ HEADER_ROOM }
    requires fits { length bytes.now ≤ MOST_HEAD }
    ensures within { IfOk result (λ found. IfSome found (IsResponseWithin bytes.now headers.new)) }
    ensures head { IfOk result (λ found. IfSome found (IsResponseOf bytes.now headers.new)) }
    ensures unfinished { IfOk result (λ found. IsNone found → HasNoResponse bytes.now × MayBecomeResponse bytes.now) }
    ensures bad { IfErr result (λ fault. (fault ≡ BadHead) × NeverHasResponse bytes.now) }
{
    match parse_response(bytes, headers) {
        Ok(Status::Complete(spans)) => Ok(Some(spans)),
        Ok(Status::Partial) => Ok(None),
        Err(_) => Err(ReplyFault::BadHead),
    }
}
