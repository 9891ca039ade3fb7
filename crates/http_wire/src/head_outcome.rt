//! What stands first in bytes that don't begin with an empty line.
ghost use Rattle.std.specs.Prelude.{◌≡◌, ◌≤◌, ℕ, length, take, false, vec_capacity};
ghost use Rattle.http_model.specs.Stream.{ends_head};
ghost use Rattle.http_wire.specs.FirstThing.{StandsFirst};

use crate::cutting::head_len;
use crate::head::{Framing, HEADER_ROOM, MOST_HEAD, judge, make_room, parse};
use http_model::HeadRefusal;
use httparse::spans::{HeaderSpan, RequestSpans};

/// What stands first, as far as the head goes.
pub(crate) enum HeadOutcome<'a> {
    /// No whole head, and it may still come.
    Unfinished,
    /// What ends the session.
    Refused(HeadRefusal),
    /// A head of `len` bytes that passes its tests, and where its parts are.
    Head {
        len: usize,
        spans: RequestSpans,
        framing: Framing<'a>,
    },
}

/// Looks at the bytes. No front of `scanned` bytes or fewer ends a head.
pub(crate) fn read_head<'a>(
    bytes: &'a [u8],
    scanned: usize,
    headers: &mut Vec<HeaderSpan>,
) -> HeadOutcome<'a>
    requires room { HEADER_ROOM ≤ vec_capacity headers.old }
    requires within { scanned ≤ length bytes.now }
    requires none_before { (n : ℕ) → n ≤ scanned → ends_head (take n bytes.now) ≡ false }
    ensures first { StandsFirst bytes.now result }
    ensures room { HEADER_ROOM ≤ vec_capacity headers.new }
{
    let Some(len) = head_len(bytes, scanned) else {
        return if bytes.len() < MOST_HEAD {
            HeadOutcome::Unfinished
        } else {
            HeadOutcome::Refused(HeadRefusal::HeadTooLarge)
        };
    };
    let head = &bytes[..len];
    make_room(headers, len);
    let headers = headers.as_mut_slice();
    let Some(spans) = parse(head, headers) else {
        return HeadOutcome::Refused(HeadRefusal::BadHead);
    };
    match judge(head, &spans, &headers[..spans.headers]) {
        Ok(framing) => HeadOutcome::Head {
            len,
            spans,
            framing,
        },
        Err(refusal) => HeadOutcome::Refused(refusal),
    }
}
