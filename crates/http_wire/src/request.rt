//! A whole request.
ghost use Rattle.std.specs.Prelude.{◌≡◌, ◌≤◌, length, bytes_eq, codes, IfOk, IsUtf8};
ghost use Rattle.httparse.specs.Grammar.{IsToken};
ghost use Rattle.httparse.specs.Spans.{IsWithin, span_bytes};
ghost use Rattle.http_wire.specs.Answers.{Answers};
ghost use Rattle.http_wire.specs.Callers.{caller_told, caller_seen};
ghost use Rattle.http_wire.specs.Seen.{request_at};

use crate::head::Framing;
use crate::header_fields::CallerText;
use crate::next::Next;
use crate::texts::path_of;
use http::Method;
use httparse::spans::RequestSpans;
use std::alloc::{AllocError, Global};

/// The version of a request.
#[derive(Clone, Copy, Debug, PartialEq, Eq)]
pub enum Version {
    /// HTTP/1.0
    Http10,
    /// HTTP/1.1
    Http11,
}

/// What the `Caller` headers of a request say of who asks.
#[derive(Debug, PartialEq, Drop)]
pub enum Caller {
    /// There is none.
    Absent,
    /// The one has this value, without the blanks round it.
    Given(Vec<u8>),
    /// There are several.
    Several,
}

/// A request with its whole body.
#[derive(Debug, Drop)]
pub struct Request {
    pub method: Method,
    /// The target, with what follows a `?`.
    pub target: String,
    pub version: Version,
    /// Who asks.
    pub caller: Caller,
    /// Whether the session ends after the answer: HTTP/1.0, or `Connection: close`.
    pub close: bool,
    /// Whether the answer is a head alone: the method is HEAD.
    pub head_only: bool,
    pub body: Vec<u8>,
}

impl Request {
    ghost use Rattle.std.specs.Prelude.{◌≡◌, ◌≤◌, length, bytes_eq, codes, string_bytes, IfOk, IsUtf8};
    ghost use Rattle.httparse.specs.Grammar.{IsToken};
    ghost use Rattle.httparse.specs.Spans.{IsWithin, span_bytes};
    ghost use Rattle.http_model.specs.Head.{path_of};
    ghost use Rattle.http_model.specs.Stream.{is_head_only};
    ghost use Rattle.http_wire.specs.Seen.{seen, request_at};

    /// The target before any `?`.
    pub fn path(&self) -> &[u8]
        ensures { result.now ≡ path_of (string_bytes self.now.target) }
    {
        path_of(self.target.as_bytes())
    }

    /// Copies a request out of its head and its body.
    fn copied(
        alloc: Global,
        head: &[u8],
        spans: &RequestSpans,
        framing: Framing<'_>,
        body: &[u8],
    ) -> Result<Request, AllocError>
        requires method_within { IsWithin (length head.now) spans.now.method }
        requires method { IsToken (span_bytes head.now spans.now.method) }
        requires target_within { IsWithin (length head.now) spans.now.path }
        requires target { IsUtf8 (span_bytes head.now spans.now.path) }
        requires version { spans.now.version ≤ 1 }
        ensures seen { IfOk result (λ request. seen request ≡ request_at head.now spans.now framing.entry body.now) }
        ensures head_only { IfOk result (λ request. request.head_only ≡ is_head_only (seen request)) }
    {
        let method_text = spans.method.of(head);
        let method = match Method::from_bytes(alloc, method_text) {
            Ok(method) => method,
            // A token is refused for want of memory alone.
            Err(_) => return Err(AllocError),
        };
        let target = String::from_utf8(Vec::from_slice(alloc, spans.path.of(head))?).unwrap();
        Ok(Request {
            method,
            target,
            version: if spans.version == 0 {
                Version::Http10
            } else {
                Version::Http11
            },
            caller: copied_caller(alloc, framing.caller)?,
            close: framing.close,
            head_only: is_head(method_text),
            body: Vec::from_slice(alloc, body)?,
        })
    }
}

/// The answer to a whole request: its copy, or what is told of it without memory.
pub(crate) fn message(
    alloc: Global,
    head: &[u8],
    spans: &RequestSpans,
    framing: Framing<'_>,
    body: &[u8],
) -> Next
    requires method_within { IsWithin (length head.now) spans.now.method }
    requires method { IsToken (span_bytes head.now spans.now.method) }
    requires target_within { IsWithin (length head.now) spans.now.path }
    requires target { IsUtf8 (span_bytes head.now spans.now.path) }
    requires version { spans.now.version ≤ 1 }
    ensures { Answers (request_at head.now spans.now framing.entry body.now) result }
{
    match Request::copied(alloc, head, spans, framing, body) {
        Ok(request) => Next::Message(request),
        Err(AllocError) => Next::Memory {
            close: framing.close,
            head_only: is_head(spans.method.of(head)),
        },
    }
}

fn copied_caller(alloc: Global, caller: CallerText<'_>) -> Result<Caller, AllocError>
    ensures { IfOk result (λ copy. caller_seen copy ≡ caller_told caller.entry) }
{
    Ok(match caller {
        CallerText::Absent => Caller::Absent,
        CallerText::Given(value) => Caller::Given(Vec::from_slice(alloc, value)?),
        CallerText::Several => Caller::Several,
    })
}

/// Whether the method is HEAD.
fn is_head(method: &[u8]) -> bool
    ensures { result ≡ bytes_eq method.now (codes "HEAD") }
{
    method == b"HEAD".as_slice()
}
