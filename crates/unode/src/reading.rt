//! Reading a unode.
ghost use Rattle.std.specs.Prelude.{◌≡◌, true, None, Ok, option_map, IfOk};
ghost use Rattle.std.specs.Option.{option_copied};
ghost use Rattle.byte_fields.specs.Gives.{Gives};
ghost use Rattle.byte_fields.specs.Reading.{id, times};
ghost use Rattle.byte_fields.specs.Reads.{Reads};
ghost use Rattle.changeset_model.specs.Path.{is_element};
ghost use Rattle.manifest_model.specs.Unode.{Unode as ModelUnode, unode_bytes, is_unode};
ghost use Rattle.manifest_model.specs.NodeReading.{one_unode_entry, entry, entries, node_parents, manifest as manifest_fields, file_unode as file_fields, unode_fields, unode_of};
ghost use Rattle.node_fields.specs.Answers.{DecodesTo};
ghost use Rattle.unode.specs.Parts.{parents_seen, entry_seen, children_seen, file_seen, manifest_of_parts};
ghost use Rattle.unode.specs.Views.{manifest_seen, unode_seen, file_in};

use crate::entry::{UnodeChild, UnodeEntry};
use crate::file::FileUnode;
use crate::manifest::UnodeManifest;
use crate::node::Unode;
use crate::parents::Parents;
use bonsai::kind_at;
use byte_fields::fields::{exactly_at, id_at, u8_at, u8_below, u32_at};
use byte_fields::{BadField, FieldFault};
use node_fields::field::{bad_node, name_at};
use node_fields::{Name, NodeFault};
use object_id::Id;
use std::alloc::Global;

// The bytes of the shortest entry: a name of one byte, its kind and an id.
const SHORTEST_ENTRY: usize = 35;

pub(crate) const MANIFEST_MARK: u8 = 0x55;

pub(crate) const FILE_MARK: u8 = 0x56;

/// The unode that the bytes spell, all of the bytes.
pub fn decode(alloc: Global, bytes: &[u8]) -> Result<Unode, NodeFault>
    // What is read is spelled so.
    ensures spelled { IfOk result (λ node. bytes.now ≡ unode_bytes (unode_seen node)) }
    // What is spelled so is read, unless memory runs out.
    ensures only { (n : ModelUnode) → is_unode n ≡ true → bytes.now ≡ unode_bytes n → DecodesTo unode_seen result (Ok n) }
    // Else the fault is the first field that is cut off or breaks its rule.
    ensures exact { DecodesTo unode_seen result (unode_of bytes.now) }
{
    node_of(alloc, bytes)
}

/// The unode of a file that the bytes spell, all of the bytes. It takes no memory.
pub fn decode_file(bytes: &[u8]) -> Option<FileUnode>
    ensures { option_map file_seen result ≡ file_in (unode_of bytes.now) }
{
    let Ok(rest) = exactly_at(bytes, FILE_MARK) else {
        return None;
    };
    match file_at(rest) {
        Ok((file, [])) => Some(file),
        _ => None,
    }
}

fn node_of(alloc: Global, bytes: &[u8]) -> Result<Unode, NodeFault>
    ensures { DecodesTo unode_seen result (unode_of bytes.now) }
{
    match unode_at(alloc, bytes) {
        Ok((node, [])) => Ok(node),
        Ok((_, rest)) => Err(bad_node(bytes, rest.len())),
        Err(FieldFault::Bad { left }) => Err(bad_node(bytes, left)),
        Err(FieldFault::Memory) => Err(NodeFault::Memory),
    }
}

fn unode_at(alloc: Global, bytes: &[u8]) -> Result<(Unode, &[u8]), FieldFault>
    ensures { Reads (λ x. (unode_seen x.0, x.1.now)) result (unode_fields bytes.now) }
{
    let (mark, rest) = u8_at(bytes)?;
    match mark {
        MANIFEST_MARK => {
            let (manifest, rest) = manifest_at(alloc, rest)?;
            Ok((Unode::Manifest(manifest), rest))
        }
        FILE_MARK => match file_at(rest) {
            Ok((file, rest)) => Ok((Unode::File(file), rest)),
            Err(fault) => Err(fault.into()),
        },
        _ => Err(FieldFault::Bad { left: bytes.len() }),
    }
}

fn manifest_at(alloc: Global, bytes: &[u8]) -> Result<(UnodeManifest, &[u8]), FieldFault>
    ensures { Reads (λ x. (manifest_seen x.0, x.1.now)) result (manifest_fields bytes.now) }
{
    let ((parents, linknode, entries), rest) = manifest_parts_at(alloc, bytes)?;
    let manifest = UnodeManifest {
        parents,
        linknode,
        entries,
    };
    Ok((manifest, rest))
}

// A manifest by its fields.
fn manifest_parts_at(
    alloc: Global,
    bytes: &[u8],
) -> Result<((Parents, Id, Vec<UnodeChild>), &[u8]), FieldFault>
    ensures { Reads (λ x. (manifest_of_parts x.0.0 x.0.1 x.0.2, x.1.now)) result (manifest_fields bytes.now) }
{
    let (parents, rest) = match parents_at(bytes) {
        Ok(read) => read,
        Err(fault) => return Err(fault.into()),
    };
    let (linknode, rest) = id_at(rest)?;
    let (count, rest) = u32_at(rest)?;
    let (entries, rest) = entries_at(alloc, count, rest)?;
    Ok(((parents, Id::from_bytes(linknode), entries), rest))
}

fn file_at(bytes: &[u8]) -> Result<(FileUnode, &[u8]), BadField>
    ensures { Gives (λ x. (file_seen x.0, x.1.now)) result (file_fields bytes.now) }
{
    let (parents, rest) = match parents_at(bytes) {
        Ok(read) => read,
        Err(fault) => return Err(fault),
    };
    let (content, rest) = id_at(rest)?;
    let (kind, rest) = kind_at(rest)?;
    let (path_hash, rest) = id_at(rest)?;
    let (linknode, rest) = id_at(rest)?;
    let file = FileUnode {
        parents,
        content: Id::from_bytes(content),
        kind,
        path_hash: Id::from_bytes(path_hash),
        linknode: Id::from_bytes(linknode),
    };
    Ok((file, rest))
}

// The version, and the parents, at most two, behind the count of them.
pub(crate) fn parents_at(bytes: &[u8]) -> Result<(Parents, &[u8]), BadField>
    ensures { Gives (λ x. (parents_seen x.0, x.1.now)) result (node_parents bytes.now) }
{
    let rest = exactly_at(bytes, 1)?;
    let (count, rest) = u8_below(rest, 3)?;
    match count {
        0 => Ok((Parents::Absent, rest)),
        1 => one_parent_at(rest),
        _ => two_parents_at(rest),
    }
}

fn one_parent_at(bytes: &[u8]) -> Result<(Parents, &[u8]), BadField>
    ensures { Gives (λ x. (parents_seen x.0, x.1.now)) result (times 1 id bytes.now) }
{
    let (parent, rest) = id_at(bytes)?;
    Ok((Parents::One(Id::from_bytes(parent)), rest))
}

fn two_parents_at(bytes: &[u8]) -> Result<(Parents, &[u8]), BadField>
    ensures { Gives (λ x. (parents_seen x.0, x.1.now)) result (times 2 id bytes.now) }
{
    let (first, rest) = id_at(bytes)?;
    let (second, rest) = id_at(rest)?;
    let parents = Parents::Two(Id::from_bytes(first), Id::from_bytes(second));
    Ok((parents, rest))
}

// A number of entries.
fn entries_at(
    alloc: Global,
    count: u32,
    bytes: &[u8],
) -> Result<(Vec<UnodeChild>, &[u8]), FieldFault>
    ensures { Reads (λ x. (children_seen x.0.items, x.1.now)) result (entries one_unode_entry count None bytes.now) }
{
    let room = (bytes.len() / SHORTEST_ENTRY).min(count as usize);
    let mut children = Vec::with_capacity(alloc, room)?;
    let mut rest = bytes;
    let mut before = None;
    for _ in 0..count {
        let ((name, entry), after) = match named_at(rest, before) {
            Ok(read) => read,
            Err(fault) => return Err(fault.into()),
        };
        let name_copy = Name::copy_of(alloc, name)?;
        children.push(UnodeChild {
            name: name_copy,
            entry,
        })?;
        before = Some(name);
        rest = after;
    }
    Ok((children, rest))
}

// A name greater than the one before it, and its entry.
fn named_at<'a>(
    bytes: &'a [u8],
    before: Option<&[u8]>,
) -> Result<((&'a [u8], UnodeEntry), &'a [u8]), BadField>
    ensures field { Gives (λ x. ((x.0.0.now, entry_seen x.0.1), x.1.now)) result (entry one_unode_entry (option_copied before.entry) bytes.now) }
    ensures element { IfOk result (λ x. is_element x.0.0.now ≡ true) }
{
    let (name, rest) = name_at(bytes, before)?;
    match entry_at(rest) {
        Ok((entry, rest)) => Ok(((name, entry), rest)),
        Err(fault) => Err(fault),
    }
}

pub(crate) fn entry_at(bytes: &[u8]) -> Result<(UnodeEntry, &[u8]), BadField>
    ensures { Gives (λ x. (entry_seen x.0, x.1.now)) result (one_unode_entry bytes.now) }
{
    let (tag, rest) = u8_below(bytes, 2)?;
    let (id, rest) = id_at(rest)?;
    if tag == 0 {
        Ok((UnodeEntry::File(Id::from_bytes(id)), rest))
    } else {
        Ok((UnodeEntry::Directory(Id::from_bytes(id)), rest))
    }
}
