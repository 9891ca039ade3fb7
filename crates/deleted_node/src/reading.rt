//! Reading a deleted node.
ghost use Rattle.std.specs.Prelude.{◌≡◌, true, None, Ok, IfOk};
ghost use Rattle.std.specs.Option.{option_copied};
ghost use Rattle.byte_fields.specs.Gives.{Gives};
ghost use Rattle.byte_fields.specs.Reading.{id};
ghost use Rattle.byte_fields.specs.Reads.{Reads};
ghost use Rattle.changeset_model.specs.Path.{is_element};
ghost use Rattle.history_model.specs.Payload.{flagged, optional};
ghost use Rattle.manifest_model.specs.Deleted.{DeletedNode as ModelNode, deleted_bytes, is_deleted};
ghost use Rattle.manifest_model.specs.NodeReading.{entry, entries, deleted_fields, deleted_of};
ghost use Rattle.node_fields.specs.Answers.{DecodesTo};
ghost use Rattle.deleted_node.specs.Parts.{entry_seen, children_seen, node_of_parts};
ghost use Rattle.deleted_node.specs.Views.{deleted_seen};

use crate::entry::{DeletedChild, DeletedEntry};
use crate::node::DeletedNode;
use byte_fields::fields::{exactly_at, id_at, u32_at};
use byte_fields::{BadField, FieldFault};
use node_fields::field::{bad_node, name_at};
use node_fields::{Name, NodeFault};
use object_id::Id;
use std::alloc::Global;

// The bytes of the shortest entry: a name of one byte and an id.
const SHORTEST_ENTRY: usize = 34;

/// The deleted node that the bytes spell, all of the bytes.
pub fn decode(alloc: Global, bytes: &[u8]) -> Result<DeletedNode, NodeFault>
    // What is read is spelled so.
    ensures spelled { IfOk result (λ node. bytes.now ≡ deleted_bytes (deleted_seen node)) }
    // What is spelled so is read, unless memory runs out.
    ensures only { (n : ModelNode) → is_deleted n ≡ true → bytes.now ≡ deleted_bytes n → DecodesTo deleted_seen result (Ok n) }
    // Else the fault is the first field that is cut off or breaks its rule. A link with its flag is one field.
    ensures exact { DecodesTo deleted_seen result (deleted_of bytes.now) }
{
    node_of(alloc, bytes)
}

fn node_of(alloc: Global, bytes: &[u8]) -> Result<DeletedNode, NodeFault>
    ensures { DecodesTo deleted_seen result (deleted_of bytes.now) }
{
    match parts_at(alloc, bytes) {
        Ok(((link, entries), [])) => Ok(DeletedNode { link, entries }),
        Ok((_, rest)) => Err(bad_node(bytes, rest.len())),
        Err(FieldFault::Bad { left }) => Err(bad_node(bytes, left)),
        Err(FieldFault::Memory) => Err(NodeFault::Memory),
    }
}

// A deleted node by its fields.
fn parts_at(
    alloc: Global,
    bytes: &[u8],
) -> Result<((Option<Id>, Vec<DeletedChild>), &[u8]), FieldFault>
    ensures { Reads (λ x. (node_of_parts x.0.0 x.0.1, x.1.now)) result (deleted_fields bytes.now) }
{
    let rest = exactly_at(bytes, 0x44)?;
    let rest = exactly_at(rest, 1)?;
    let (link, rest) = match link_at(rest) {
        Ok(read) => read,
        Err(fault) => return Err(fault.into()),
    };
    let (count, rest) = u32_at(rest)?;
    let (entries, rest) = entries_at(alloc, count, rest)?;
    Ok(((link, entries), rest))
}

// An id that may be absent: one field with its flag.
pub(crate) fn link_at(bytes: &[u8]) -> Result<(Option<Id>, &[u8]), BadField>
    ensures { Gives (λ x. (x.0, x.1.now)) result (optional bytes.now) }
{
    let left = bytes.len();
    match bytes {
        [0, rest @ ..] => Ok((None, rest)),
        [1, rest @ ..] => match present_id_at(rest) {
            Ok(present) => Ok(present),
            Err(_) => Err(BadField { left }),
        },
        _ => Err(BadField { left }),
    }
}

// The id behind the flag of one that is there.
fn present_id_at(bytes: &[u8]) -> Result<(Option<Id>, &[u8]), BadField>
    ensures { Gives (λ x. (x.0, x.1.now)) result (flagged 1 bytes.now) }
{
    let (id, rest) = id_at(bytes)?;
    Ok((Some(Id::from_bytes(id)), rest))
}

// A number of entries.
fn entries_at(
    alloc: Global,
    count: u32,
    bytes: &[u8],
) -> Result<(Vec<DeletedChild>, &[u8]), FieldFault>
    ensures { Reads (λ x. (children_seen x.0.items, x.1.now)) result (entries id count None bytes.now) }
{
    let room = (bytes.len() / SHORTEST_ENTRY).min(count as usize);
    let mut children = Vec::with_capacity(alloc, room)?;
    let mut rest = bytes;
    let mut before = None;
    for _ in 0..count {
        let ((name, entry), after) = match named_at(rest, before) {
            Ok(read) => read,
            Err(fault) => return Err(fault.into()),
        };
        let name_copy = Name::copy_of(alloc, name)?;
        children.push(DeletedChild {
            name: name_copy,
            entry,
        })?;
        before = Some(name);
        rest = after;
    }
    Ok((children, rest))
}

// A name greater than the one before it, and its entry.
fn named_at<'a>(
    bytes: &'a [u8],
    before: Option<&[u8]>,
) -> Result<((&'a [u8], DeletedEntry), &'a [u8]), BadField>
    ensures field { Gives (λ x. ((x.0.0.now, entry_seen x.0.1), x.1.now)) result (entry id (option_copied before.entry) bytes.now) }
    ensures element { IfOk result (λ x. is_element x.0.0.now ≡ true) }
{
    let (name, rest) = name_at(bytes, before)?;
    match entry_at(rest) {
        Ok((entry, rest)) => Ok(((name, entry), rest)),
        Err(fault) => Err(fault),
    }
}

pub(crate) fn entry_at(bytes: &[u8]) -> Result<(DeletedEntry, &[u8]), BadField>
    ensures { Gives (λ x. (entry_seen x.0, x.1.now)) result (id bytes.now) }
{
    let (bytes_of_id, rest) = id_at(bytes)?;
    let entry = DeletedEntry {
        id: Id::from_bytes(bytes_of_id),
    };
    Ok((entry, rest))
}
