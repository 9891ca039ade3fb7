//! Entries, read of payloads.
ghost use Rattle.std.specs.Prelude.{◌≡◌, ◌-◌, ◌^◌, ◌<◌, [], length, Ok, IfOk};
ghost use Rattle.byte_fields.specs.Reads.{Reads};
ghost use Rattle.history_model.specs.History.{changesets_in};
ghost use Rattle.history_model.specs.Journal.{IsPayload, payload_len};
ghost use Rattle.history_model.specs.Payload as payload;
ghost use Rattle.repo_events.specs.Decodes.{Decodes};
ghost use Rattle.repo_events.specs.Entries.{body_of, moment_field, parts_in};

use crate::body::{Body, Landing, Move};
use crate::limits::MOST_PAYLOAD;
use crate::mark;
use crate::parts::{commit_of, commits_at, ids_at, moment_at, name_at, optional_at};
use crate::payload_fault::PayloadFault;
use byte_fields::FieldFault;
use byte_fields::fields::{id_at, u16_at, u64_at};
use object_id::Id;
use repo_path::BookName;
use std::alloc::Global;

/// The entry that a payload stands for.
pub fn decode_payload(alloc: Global, bytes: &[u8]) -> Result<Body, PayloadFault>
    ensures exact { Decodes result (payload.payload_body bytes.now) }
    // What is read is a payload of the entry, and can be encoded again.
    ensures spelled { IfOk result (λ body. IsPayload (body_of body) bytes.now) }
    ensures measured { IfOk result (λ body. payload_len (body_of body) ≡ length bytes.now) }
    ensures counted { IfOk result (λ body. length (changesets_in (body_of body)) < 2 ^ 16) }
    ensures parted { IfOk result (λ body. length (parts_in (body_of body)) < 2 ^ 16) }
{
    read_all(alloc, bytes)
}

// The entry that all of the bytes stand for.
fn read_all(alloc: Global, bytes: &[u8]) -> Result<Body, PayloadFault>
    ensures { Decodes result (payload.payload_body bytes.now) }
{
    if bytes.len() > MOST_PAYLOAD {
        return Err(PayloadFault::BadPayload {
            at: MOST_PAYLOAD as u64,
        });
    }
    match body_at(alloc, bytes) {
        Ok((body, [])) => Ok(body),
        Ok((_, rest)) => Err(bad_payload(bytes, rest.len())),
        Err(FieldFault::Bad { left }) => Err(bad_payload(bytes, left)),
        Err(FieldFault::Memory) => Err(PayloadFault::Memory),
    }
}

// The fault at a field before which all but these bytes were read.
fn bad_payload(bytes: &[u8], left: usize) -> PayloadFault
    ensures { result ≡ PayloadFault.BadPayload (length bytes.now - left) }
{
    PayloadFault::BadPayload {
        at: bytes.len().saturating_sub(left) as u64,
    }
}

// A mark, and the entry that it tells of.
fn body_at(alloc: Global, bytes: &[u8]) -> Result<(Body, &[u8]), FieldFault>
    ensures { Reads (λ x. (body_of x.0, x.1.now)) result (payload.body bytes.now) }
{
    match bytes {
        [mark::CONTENT, content @ ..] => Ok((content_of(content), &[])),
        [mark::CHANGESET, rest @ ..] => match commit_of(alloc, bytes)? {
            Some(commit) => Ok((Body::Change(commit), &[])),
            None => Err(FieldFault::Bad { left: rest.len() }),
        },
        [mark::MOVE, rest @ ..] => move_at(alloc, None, rest),
        [mark::LANDING, rest @ ..] => landing_at(alloc, None, false, rest),
        [mark::DATED_LANDING, rest @ ..] => landing_at(alloc, None, true, rest),
        [mark::WHOLE, rest @ ..] => whole_at(alloc, rest),
        [mark::CALLER, rest @ ..] => called_at(alloc, rest),
        _ => Err(FieldFault::Bad { left: bytes.len() }),
    }
}

// A caller, and what stands behind it.
fn called_at(alloc: Global, bytes: &[u8]) -> Result<(Body, &[u8]), FieldFault>
    ensures { Reads (λ x. (body_of x.0, x.1.now)) result (payload.wrapper bytes.now) }
{
    let (caller, rest) = name_at(alloc, bytes)?;
    match rest {
        [mark::MOVE, fields @ ..] => move_at(alloc, Some(caller), fields),
        [mark::LANDING, fields @ ..] => landing_at(alloc, Some(caller), false, fields),
        [mark::DATED_LANDING, fields @ ..] => landing_at(alloc, Some(caller), true, fields),
        [mark::POLICY, text @ ..] => policy_of(alloc, caller, text),
        _ => Err(FieldFault::Bad { left: rest.len() }),
    }
}

fn policy_of<'a>(
    alloc: Global,
    caller: BookName,
    text: &'a [u8],
) -> Result<(Body, &'a [u8]), FieldFault>
    ensures { Reads (λ x. (body_of x.0, x.1.now)) result (payload.policy caller text.now) }
{
    let text = Vec::from_slice(alloc, text)?;
    Ok((Body::Policy { caller, text }, &[]))
}

fn content_of(content: &[u8]) -> Body
    ensures { payload.content content.now ≡ Ok (body_of result, []) }
{
    Body::Content {
        id: Id::of(content),
        length: content.len() as u64,
    }
}

fn whole_at(alloc: Global, bytes: &[u8]) -> Result<(Body, &[u8]), FieldFault>
    ensures { Reads (λ x. (body_of x.0, x.1.now)) result (payload.whole bytes.now) }
{
    let (id, rest) = id_at(bytes)?;
    let (length, rest) = u64_at(rest)?;
    let (count, rest) = u16_at(rest)?;
    let (parts, rest) = ids_at(alloc, count, rest)?;
    let whole = Body::Whole {
        id: Id::from_bytes(id),
        length,
        parts,
    };
    Ok((whole, rest))
}

fn move_at(
    alloc: Global,
    caller: Option<BookName>,
    bytes: &[u8],
) -> Result<(Body, &[u8]), FieldFault>
    ensures { Reads (λ x. (body_of x.0, x.1.now)) result (payload.book caller bytes.now) }
{
    let (name, rest) = name_at(alloc, bytes)?;
    let (from, rest) = match optional_at(rest) {
        Ok(read) => read,
        Err(fault) => return Err(fault.into()),
    };
    let (to, rest) = match optional_at(rest) {
        Ok(read) => read,
        Err(fault) => return Err(fault.into()),
    };
    let movement = Move {
        name,
        from,
        to,
        caller,
    };
    Ok((Body::Book(movement), rest))
}

fn landing_at(
    alloc: Global,
    caller: Option<BookName>,
    dated: bool,
    bytes: &[u8],
) -> Result<(Body, &[u8]), FieldFault>
    ensures { Reads (λ x. (body_of x.0, x.1.now)) result (payload.landing caller (moment_field dated) bytes.now) }
{
    let (name, rest) = name_at(alloc, bytes)?;
    let (old, rest) = id_at(rest)?;
    let (draft, rest) = id_at(rest)?;
    let (moment, rest) = moment_at(dated, rest)?;
    let (count, rest) = u16_at(rest)?;
    let (new, rest) = commits_at(alloc, count, rest)?;
    let landing = Landing {
        name,
        old: Id::from_bytes(old),
        draft: Id::from_bytes(draft),
        new,
        moment,
        caller,
    };
    Ok((Body::Land(landing), rest))
}
