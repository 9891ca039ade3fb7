//! The parts of a payload, each read from left to right.
ghost use Rattle.std.specs.Prelude.{◌≡◌, IfOk, IfErr};
ghost use Rattle.std.specs.Result.{result_ok};
ghost use Rattle.byte_fields.specs.Gives.{Gives};
ghost use Rattle.byte_fields.specs.Reading.{id, keeping, times};
ghost use Rattle.byte_fields.specs.Reads.{Reads};
ghost use Rattle.byte_fields.specs.declared.field_fault.FieldFault.TheVariants.{Memory};
ghost use Rattle.changeset_model.specs.Decoding.{decoded};
ghost use Rattle.history_model.specs.Bookmark.{is_name};
ghost use Rattle.history_model.specs.Payload as payload;
ghost use Rattle.repo_events.specs.Entries.{moment_field};

use crate::spelled::Spelled;
use bonsai::{Commit, DecodeFault};
use byte_fields::fields::{bytes_at, id_at, u8_at, u32_at, u64_at};
use byte_fields::{BadField, FieldFault};
use object_id::Id;
use repo_path::{BookName, NameFault};
use std::alloc::Global;
use std::str;

// The name that bytes are, if they are one.
fn name_of(alloc: Global, bytes: &[u8]) -> Result<Option<BookName>, FieldFault>
    ensures name { IfOk result (λ name. name ≡ keeping is_name bytes.now) }
    ensures memory { IfErr result (λ e. e ≡ Memory) }
{
    let Ok(text) = str::from_utf8(bytes) else {
        return Ok(None);
    };
    match BookName::parse(alloc, text) {
        Ok(name) => Ok(Some(name)),
        Err(NameFault::BadName { at: _ }) => Ok(None),
        Err(NameFault::Memory) => Err(FieldFault::Memory),
    }
}

/// The name of a bookmark.
pub(crate) fn name_at(alloc: Global, bytes: &[u8]) -> Result<(BookName, &[u8]), FieldFault>
    ensures { Reads (λ x. (x.0, x.1.now)) result (payload.bookmark_name bytes.now) }
{
    let (len, rest) = u8_at(bytes)?;
    let (text, after) = bytes_at(rest, usize::from(len))?;
    let Some(name) = name_of(alloc, text)? else {
        return Err(FieldFault::Bad { left: rest.len() });
    };
    Ok((name, after))
}

// The id behind the flag of one that is there.
fn present_id_at(bytes: &[u8]) -> Result<(Option<Id>, &[u8]), BadField>
    ensures { Gives (λ x. (x.0, x.1.now)) result (payload.flagged 1 bytes.now) }
{
    let (id, rest) = id_at(bytes)?;
    Ok((Some(Id::from_bytes(id)), rest))
}

/// An id that may be absent: one field with its flag.
pub(crate) fn optional_at(bytes: &[u8]) -> Result<(Option<Id>, &[u8]), BadField>
    ensures { Gives (λ x. (x.0, x.1.now)) result (payload.optional bytes.now) }
{
    let left = bytes.len();
    match bytes {
        [0, rest @ ..] => Ok((None, rest)),
        [1, rest @ ..] => match present_id_at(rest) {
            Ok(present) => Ok(present),
            Err(_) => Err(BadField { left }),
        },
        _ => Err(BadField { left }),
    }
}

/// The changeset that bytes spell, if they spell one.
pub(crate) fn commit_of(alloc: Global, bytes: &[u8]) -> Result<Option<Commit>, FieldFault>
    ensures commit { IfOk result (λ commit. commit ≡ result_ok (decoded bytes.now)) }
    ensures memory { IfErr result (λ e. e ≡ Memory) }
{
    match Commit::decode(alloc, bytes) {
        Ok(commit) => Ok(Some(commit)),
        Err(DecodeFault::Memory) => Err(FieldFault::Memory),
        Err(DecodeFault::TooLong { length: _ }) => Ok(None),
        Err(DecodeFault::BadEncoding { at: _ }) => Ok(None),
        Err(DecodeFault::SelfConflict { short: _, long: _ }) => Ok(None),
    }
}

// A changeset, whose spelling stands behind its length.
fn commit_at(alloc: Global, bytes: &[u8]) -> Result<(Spelled, &[u8]), FieldFault>
    ensures { Reads (λ x. (x.0, x.1.now)) result (payload.encoded bytes.now) }
{
    let (len, rest) = u32_at(bytes)?;
    let (spelling, after) = bytes_at(rest, len as usize)?;
    let Some(commit) = Spelled::read(alloc, spelling)? else {
        return Err(FieldFault::Bad { left: rest.len() });
    };
    Ok((commit, after))
}

/// So many spellings, each behind its length.
pub(crate) fn commits_at(
    alloc: Global,
    count: u16,
    bytes: &[u8],
) -> Result<(Vec<Spelled>, &[u8]), FieldFault>
    ensures { Reads (λ x. (x.0.items, x.1.now)) result (times count payload.encoded bytes.now) }
{
    // Each has a length of four bytes before it, so a count that is wrong takes no room.
    let room = usize::from(count).min(bytes.len() / 4);
    let mut commits = Vec::with_capacity(alloc, room)?;
    let mut rest = bytes;
    for _ in 0..count {
        let (commit, after) = commit_at(alloc, rest)?;
        commits.push(commit)?;
        rest = after;
    }
    Ok((commits, rest))
}

/// The moment of a landing that is dated, and none of one that isn't.
pub(crate) fn moment_at(dated: bool, bytes: &[u8]) -> Result<(Option<u64>, &[u8]), BadField>
    ensures { Gives (λ x. (x.0, x.1.now)) result (moment_field dated bytes.now) }
{
    if !dated {
        return Ok((None, bytes));
    }
    let (moment, rest) = u64_at(bytes)?;
    Ok((Some(moment), rest))
}

/// So many ids.
pub(crate) fn ids_at(
    alloc: Global,
    count: u16,
    bytes: &[u8],
) -> Result<(Vec<Id>, &[u8]), FieldFault>
    ensures { Reads (λ x. (x.0.items, x.1.now)) result (times count id bytes.now) }
{
    let room = usize::from(count).min(bytes.len() / 32);
    let mut ids = Vec::with_capacity(alloc, room)?;
    let mut rest = bytes;
    for _ in 0..count {
        let (part, after) = id_at(rest)?;
        ids.push(Id::from_bytes(part))?;
        rest = after;
    }
    Ok((ids, rest))
}
