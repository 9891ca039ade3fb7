//! The frame of a landing whose changesets are encoded into it.
ghost use Rattle.std.specs.Prelude.{◌≡◌, ◌<◌, ◌+◌, ◌^◌, ◌++◌, length, IfOk};
ghost use Rattle.std.specs.Option.{option_copied};
ghost use Rattle.std.specs.Int.{w32, to_be_bytes};
ghost use Rattle.bonsai.specs.Encodings.{encodings};
ghost use Rattle.history_model.specs.History as model;
ghost use Rattle.history_model.specs.Journal.{payload_len};
ghost use Rattle.repo_events.specs.Entries.{landing_head};

use crate::body::{caller_length, moment_length};
use crate::encoding::{LandingHead, put_landing_head};
use crate::limits::FRAME;
use std::alloc::{AllocError, Global};

// The bytes of a landing's payload beside the name and the changesets: a mark, the name's length, two ids and a count.
const FIELDS: u64 = 68;

/// The length in bytes of the payload of a landing, if the encodings of its changesets have so many
/// bytes, with the length of 32 bits before each.
pub fn landing_length(head: &LandingHead<'_>, changesets: u64) -> u64
    requires { changesets < 2 ^ 63 }
    ensures value { (landing : model.Landing) → landing.name ≡ head.now.name.now → landing.moment ≡ head.now.moment → landing.caller ≡ option_copied head.now.caller
        → length landing.old ≡ 32 → length landing.draft ≡ 32 → changesets ≡ length (encodings landing.new) → result ≡ payload_len (model.Land landing) }
    ensures short { result < changesets + 2 ^ 9 }
{
    let told = caller_length(head.caller) + moment_length(head.moment);
    FIELDS + head.name.as_str().len() as u64 + told + changesets
}

/// The frame of a landing of so many changesets up to them: the length of its payload and the fields before them. What
/// follows are their encodings, each behind its length of 32 bits, and a closed gate. There is room for them.
pub fn begin_landing(
    alloc: Global,
    head: &LandingHead<'_>,
    count: u16,
    length: u32,
) -> Result<Vec<u8>, AllocError>
    ensures { IfOk result (λ frame. frame.items ≡ to_be_bytes w32 length ++ landing_head (option_copied head.now.caller) head.now.name.now head.now.old head.now.draft head.now.moment count) }
{
    let mut frame = Vec::with_capacity(alloc, length as usize + FRAME)?;
    frame.extend_from_slice(&length.to_be_bytes())?;
    put_landing_head(&mut frame, head, count)?;
    Ok(frame)
}
