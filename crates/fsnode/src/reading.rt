//! Reading an fsnode.
ghost use Rattle.std.specs.Prelude.{◌≡◌, ◌&&◌, true, None, Ok, Err, IfOk, IfErr, length};
ghost use Rattle.std.specs.Option.{option_copied};
ghost use Rattle.byte_fields.specs.Gives.{Gives};
ghost use Rattle.byte_fields.specs.Reads.{Reads};
ghost use Rattle.changeset_model.specs.Path.{is_element};
ghost use Rattle.manifest_model.specs.Fsnode.{Fsnode as ModelFsnode, fsnode_bytes, is_fsnode};
ghost use Rattle.manifest_model.specs.NodeReading.{summary_fields, summary as summary_field, fs_entry, fs_entry_of, entry, entries, fsnode_fields, fsnode_of};
ghost use Rattle.node_fields.specs.Answers.{DecodesTo};
ghost use Rattle.fsnode.specs.Parts.{summary_seen, entry_seen, children_seen, fsnode_of_parts};
ghost use Rattle.fsnode.specs.Views.{fsnode_seen};

use crate::entry::{FsChild, FsEntry};
use crate::node::Fsnode;
use crate::summary::Summary;
use bonsai::kind_at;
use byte_fields::fields::{exactly_at, id_at, u8_below, u32_at, u64_at};
use byte_fields::{BadField, FieldFault};
use node_fields::field::{bad_node, name_at};
use node_fields::{Name, NodeFault};
use object_id::Id;
use std::alloc::Global;

// The bytes of the shortest entry: a name of one byte, and a file.
const SHORTEST_ENTRY: usize = 44;

/// The fsnode that the bytes spell, all of the bytes.
pub fn decode(alloc: Global, bytes: &[u8]) -> Result<Fsnode, NodeFault>
    // What is read is spelled so.
    ensures spelled { IfOk result (λ node. bytes.now ≡ fsnode_bytes (fsnode_seen node)) }
    // What is spelled so is read, unless memory runs out.
    ensures only { (n : ModelFsnode) → is_fsnode n ≡ true → bytes.now ≡ fsnode_bytes n → DecodesTo fsnode_seen result (Ok n) }
    // Else the fault is the first field that is cut off or breaks its rule.
    ensures exact { DecodesTo fsnode_seen result (fsnode_of bytes.now) }
{
    node_of(alloc, bytes)
}

fn node_of(alloc: Global, bytes: &[u8]) -> Result<Fsnode, NodeFault>
    ensures { DecodesTo fsnode_seen result (fsnode_of bytes.now) }
{
    match parts_at(alloc, bytes) {
        Ok(((summary, entries), [])) => Ok(Fsnode { summary, entries }),
        Ok((_, rest)) => Err(bad_node(bytes, rest.len())),
        Err(FieldFault::Bad { left }) => Err(bad_node(bytes, left)),
        Err(FieldFault::Memory) => Err(NodeFault::Memory),
    }
}

// An fsnode by its fields.
fn parts_at(alloc: Global, bytes: &[u8]) -> Result<((Summary, Vec<FsChild>), &[u8]), FieldFault>
    ensures { Reads (λ x. (fsnode_of_parts x.0.0 x.0.1, x.1.now)) result (fsnode_fields bytes.now) }
{
    let rest = exactly_at(bytes, 0x46)?;
    let rest = exactly_at(rest, 1)?;
    let (summary, rest) = summary_at(rest)?;
    let (count, rest) = u32_at(rest)?;
    let (entries, rest) = entries_at(alloc, count, rest)?;
    Ok(((summary, entries), rest))
}

// A number of entries.
fn entries_at(alloc: Global, count: u32, bytes: &[u8]) -> Result<(Vec<FsChild>, &[u8]), FieldFault>
    ensures { Reads (λ x. (children_seen x.0.items, x.1.now)) result (entries fs_entry count None bytes.now) }
{
    let room = (bytes.len() / SHORTEST_ENTRY).min(count as usize);
    let mut children = Vec::with_capacity(alloc, room)?;
    let mut rest = bytes;
    let mut before = None;
    for _ in 0..count {
        let ((name, entry), after) = match named_at(rest, before) {
            Ok(read) => read,
            Err(fault) => return Err(fault.into()),
        };
        let name_copy = Name::copy_of(alloc, name)?;
        children.push(FsChild {
            name: name_copy,
            entry,
        })?;
        before = Some(name);
        rest = after;
    }
    Ok((children, rest))
}

// A name greater than the one before it, and its entry.
fn named_at<'a>(
    bytes: &'a [u8],
    before: Option<&[u8]>,
) -> Result<((&'a [u8], FsEntry), &'a [u8]), BadField>
    ensures field { Gives (λ x. ((x.0.0.now, entry_seen x.0.1), x.1.now)) result (entry fs_entry (option_copied before.entry) bytes.now) }
    ensures element { IfOk result (λ x. is_element x.0.0.now ≡ true) }
{
    let (name, rest) = name_at(bytes, before)?;
    match entry_at(rest) {
        Ok((entry, rest)) => Ok(((name, entry), rest)),
        Err(fault) => Err(fault),
    }
}

pub(crate) fn entry_at(bytes: &[u8]) -> Result<(FsEntry, &[u8]), BadField>
    ensures { Gives (λ x. (entry_seen x.0, x.1.now)) result (fs_entry bytes.now) }
{
    let (tag, rest) = u8_below(bytes, 2)?;
    if tag == 0 {
        file_at(rest)
    } else {
        directory_at(rest)
    }
}

fn file_at(bytes: &[u8]) -> Result<(FsEntry, &[u8]), BadField>
    ensures { Gives (λ x. (entry_seen x.0, x.1.now)) result (fs_entry_of 0 bytes.now) }
{
    let (kind, rest) = kind_at(bytes)?;
    let (size, rest) = u64_at(rest)?;
    let (content, rest) = id_at(rest)?;
    let file = FsEntry::File {
        content: Id::from_bytes(content),
        kind,
        size,
    };
    Ok((file, rest))
}

fn directory_at(bytes: &[u8]) -> Result<(FsEntry, &[u8]), BadField>
    ensures { Gives (λ x. (entry_seen x.0, x.1.now)) result (fs_entry_of 1 bytes.now) }
{
    let (id, rest) = id_at(bytes)?;
    let (summary, rest) = summary_at(rest)?;
    let directory = FsEntry::Directory {
        id: Id::from_bytes(id),
        summary,
    };
    Ok((directory, rest))
}

// The five numbers of a summary as one field.
pub(crate) fn summary_at(bytes: &[u8]) -> Result<(Summary, &[u8]), BadField>
    ensures { Gives (λ x. (summary_seen x.0, x.1.now)) result (summary_field bytes.now) }
{
    summary_numbers_at(bytes).map_err(|_| BadField { left: bytes.len() })
}

fn summary_numbers_at(bytes: &[u8]) -> Result<(Summary, &[u8]), BadField>
    ensures { Gives (λ x. (summary_seen x.0, x.1.now)) result (summary_fields bytes.now) }
{
    let (child_files_count, rest) = u64_at(bytes)?;
    let (child_files_total_size, rest) = u64_at(rest)?;
    let (child_dirs_count, rest) = u64_at(rest)?;
    let (descendant_files_count, rest) = u64_at(rest)?;
    let (descendant_files_total_size, rest) = u64_at(rest)?;
    let summary = Summary {
        child_files_count,
        child_files_total_size,
        child_dirs_count,
        descendant_files_count,
        descendant_files_total_size,
    };
    Ok((summary, rest))
}
