//! What stands at the front of a link's bytes.
ghost use Rattle.std.specs.Prelude.{◌≡◌, ◌+◌, ◌<◌, ◌≤◌, ℕ, List, length, take, drop};
ghost use Rattle.http_model.specs.Stream.{most_head};
ghost use Rattle.reply_reader.specs.Replies as model;
ghost use Rattle.reply_reader.specs.Replies.{IsReply, IsUnfinished, IsNoReply, IsCause};
ghost use Rattle.reply_reader.specs.Fronts.{reply_of, Cuts, IsFront, IsThis, OnWhole, OnUnfinished, OnBad};

use crate::framing::{Framing, frame};
use crate::head::{HEADER_ROOM, MOST_HEAD, parse};
use crate::header_values::MOST_BODY;
use crate::media::Media;
use crate::reply_fault::ReplyFault;
use httparse::spans::{HeaderSpan, ResponseSpans};

/// A whole reply, and the bytes after it.
#[derive(Clone, Copy, Debug)]
pub struct Reply<'a> {
    /// Its status code.
    pub status: u16,
    pub media: Media,
    pub body: &'a [u8],
    /// The bytes that follow its body.
    pub rest: &'a [u8],
}

/// What stands first.
#[derive(Clone, Copy, Debug)]
pub enum Front<'a> {
    /// A whole reply.
    Whole(Reply<'a>),
    /// Less than a whole reply: more bytes are needed.
    Unfinished,
    /// No reply begins so, whatever follows.
    Bad(ReplyFault),
}

/// What stands at the front of the bytes that were read so far, where a body has at most `limit` bytes.
///
/// A reply is a response head of HTTP/1.1 (RFC 9112) of at most 16,384 bytes, and as many bytes of a body as its one
/// `Content-Length` says. It has one `Content-Type` and no `Transfer-Encoding`; further headers may stand in any
/// order. `headers` is room that the call writes over. It takes no memory.
pub fn read_reply<'a>(bytes: &'a [u8], limit: usize, headers: &mut [HeaderSpan]) -> Front<'a>
    requires limit { limit ≤ MOST_BODY }
    requires room { length headers.old ≡ HEADER_ROOM }
    ensures whole { OnWhole result (λ reply. IsReply limit bytes.now (reply_of reply) reply.rest.now) }
    // Each reply at the front is found.
    ensures found { (reply : model.Reply) (rest : List ℕ) → IsReply limit bytes.now reply rest → IsThis reply rest result }
    ensures unfinished { OnUnfinished result (IsUnfinished limit bytes.now) }
    // So a reader that waits holds no more than this.
    ensures bound { OnUnfinished result (length bytes.now < most_head + limit) }
    ensures bad { OnBad result (λ fault. IsNoReply limit bytes.now) }
    ensures early { OnBad result (λ fault. ¬ (IsUnfinished limit bytes.now)) }
    ensures cause { OnBad result (λ fault. IsCause fault limit bytes.now) }
{
    stand_first(bytes, limit, headers)
}

fn stand_first<'a>(bytes: &'a [u8], limit: usize, headers: &mut [HeaderSpan]) -> Front<'a>
    requires limit { limit ≤ MOST_BODY }
    requires room { length headers.old ≡ HEADER_ROOM }
    ensures { IsFront limit bytes.now result }
{
    let begin = &bytes[..bytes.len().min(MOST_HEAD)];
    let spans = match parse(begin, headers) {
        Ok(Some(spans)) => spans,
        Ok(None) if bytes.len() < MOST_HEAD => return Front::Unfinished,
        Ok(None) => return Front::Bad(ReplyFault::HeadTooLarge),
        Err(fault) => return Front::Bad(fault),
    };
    match frame(begin, spans.version, &headers[..spans.headers], limit) {
        Ok(framing) => with_body(bytes, &spans, framing),
        Err(fault) => Front::Bad(fault),
    }
}

/// The reply of a head that is in order, if its body is there.
fn with_body<'a>(bytes: &'a [u8], spans: &ResponseSpans, framing: Framing) -> Front<'a>
    requires { spans.now.len ≤ length bytes.now }
    ensures { Cuts bytes.now spans.now framing result }
{
    let after = &bytes[spans.len..];
    if after.len() < framing.body {
        return Front::Unfinished;
    }
    Front::Whole(Reply {
        status: spans.code,
        media: framing.media,
        body: &after[..framing.body],
        rest: &after[framing.body..],
    })
}
