//! A list of changesets in a body.
ghost use Rattle.std.specs.Prelude.{◌≡◌, ◌<◌, IfOk, [], ◌+◌, length};
ghost use Rattle.std.specs.Vec.{vec_capacity};
ghost use Rattle.byte_fields.specs.Gives.{Gives};
ghost use Rattle.byte_fields.specs.Reads.{Reads as ReadsField};
ghost use Rattle.stacked_calls.specs.Stacking.{calls_seen};
ghost use Rattle.session_model.specs.Stacks as model;
ghost use Rattle.routes.specs.Failed.{Reads};
ghost use Rattle.routes.specs.Listed.{changesets_seen};

use crate::route_refusal::RouteRefusal;
use byte_fields::fields::{bytes_at, u32_at};
use byte_fields::{BadField, FieldFault};
use repo_calls::Ask;
use std::alloc::{AllocError, Global};

/// How many changesets a list has at most.
const MOST_LISTED: usize = 100;

// The next changeset of a list, and the bytes after it.
fn one_listed(bytes: &[u8]) -> Result<(&[u8], &[u8]), BadField>
    ensures { Gives (λ x. (x.0.now, x.1.now)) result (model.one_listed bytes.now) }
{
    let (len, rest) = u32_at(bytes)?;
    bytes_at(rest, len as usize)
}

// At most so many changesets, up to the end of the bytes.
fn listed(alloc: Global, most: usize, bytes: &[u8]) -> Result<Vec<&[u8]>, FieldFault>
    ensures list { ReadsField (λ list. (changesets_seen list.items, [])) result (model.listed most bytes.now) }
    ensures some { IfOk result (λ list. 0 < length list.items) }
{
    let mut list = Vec::with_capacity(alloc, most)?;
    let mut rest = bytes;
    for _ in 0..most {
        let (changeset, after) = one_listed(rest)?;
        list.push(changeset)?;
        rest = after;
        if rest.is_empty() {
            return Ok(list);
        }
    }
    // one too many begins here
    Err(FieldFault::Bad { left: rest.len() })
}

/// The changesets of a list.
pub(crate) fn changesets_of(alloc: Global, body: &[u8]) -> Result<Vec<&[u8]>, RouteRefusal>
    ensures list { Reads (λ list. changesets_seen list.items) result (model.stack_of body.now) }
    ensures some { IfOk result (λ list. 0 < length list.items) }
{
    match listed(alloc, MOST_LISTED, body) {
        Ok(list) => Ok(list),
        Err(FieldFault::Bad { left }) => Err(RouteRefusal::BadList {
            at: body.len().saturating_sub(left) as u64,
        }),
        Err(FieldFault::Memory) => Err(RouteRefusal::Memory),
    }
}

/// An ask to store each changeset, and room for one more.
pub(crate) fn puts<'a>(alloc: Global, changesets: &[&'a [u8]]) -> Result<Vec<Ask<'a>>, AllocError>
    ensures calls { IfOk result (λ asks. calls_seen asks.items ≡ model.puts (changesets_seen changesets.now)) }
    ensures some { IfOk result (λ asks. length asks.items ≡ length changesets.now) }
    ensures room { IfOk result (λ asks. length asks.items < vec_capacity asks) }
{
    let mut asks = Vec::with_capacity(alloc, changesets.len() + 1)?;
    for changeset in changesets {
        asks.push_reserved(Ask::PutChangeset(changeset));
    }
    Ok(asks)
}

/// The last changeset.
pub(crate) fn last_of<'a>(changesets: &[&'a [u8]]) -> &'a [u8]
    ensures { result.now ≡ model.last_listed (changesets_seen changesets.now) }
{
    match changesets.last() {
        Some(changeset) => changeset,
        None => &[],
    }
}
