//! Writing an fsnode.
ghost use Rattle.std.specs.Prelude.{◌≡◌, ◌++◌, true, flat_map, OnOk, IfOk};
ghost use Rattle.manifest_model.specs.Fsnode.{summary_bytes, fs_entry_bytes, fsnode_bytes, is_fsnode};
ghost use Rattle.byte_fields.specs.Bytes.{sized};
ghost use Rattle.std.specs.Int.{w8, w64, to_be_bytes};
ghost use Rattle.fsnode.specs.Parts.{summary_seen, entry_seen, children_seen};
ghost use Rattle.fsnode.specs.Views.{fsnode_seen};

use crate::entry::{FsChild, FsEntry};
use crate::node::Fsnode;
use crate::summary::Summary;
use std::alloc::{AllocError, Global};

// The bytes of an fsnode before its entries: a mark, a version, five numbers and a count.
const HEAD: usize = 46;

// The bytes of an entry beside its name, of a file and of a directory.
const FILE: usize = 43;

const DIRECTORY: usize = 74;

/// The one spelling of an fsnode.
pub fn encode(alloc: Global, node: &Fsnode) -> Result<Vec<u8>, AllocError>
    ensures spelling { IfOk result (λ bytes. bytes.items ≡ fsnode_bytes (fsnode_seen node.now)) }
    ensures valid { is_fsnode (fsnode_seen node.now) ≡ true }
{
    let mut out = Vec::with_capacity(alloc, room_for(&node.entries))?;
    out.extend_from_slice(&[0x46, 1])?;
    put_summary(&mut out, &node.summary)?;
    out.extend_from_slice(&(node.entries.len() as u32).to_be_bytes())?;
    put_children(&mut out, &node.entries)?;
    Ok(out)
}

// How many bytes the fsnode with these entries has, for which there is room then from the start.
fn room_for(children: &[FsChild]) -> usize {
    let mut room = HEAD;
    for child in children {
        let fields = match child.entry {
            FsEntry::File { .. } => FILE,
            FsEntry::Directory { .. } => DIRECTORY,
        };
        room = room.saturating_add(fields + child.name.as_bytes().len());
    }
    room
}

fn put_summary(out: &mut Vec<u8>, summary: &Summary) -> Result<(), AllocError>
    ensures { OnOk result (out.new.items ≡ out.old.items ++ summary_bytes (summary_seen summary.now)) }
{
    put_numbers(out, &summary.numbers())
}

fn put_numbers(out: &mut Vec<u8>, numbers: &[u64]) -> Result<(), AllocError>
    ensures { OnOk result (out.new.items ≡ out.old.items ++ flat_map (to_be_bytes w64) numbers.now) }
{
    for number in numbers {
        out.extend_from_slice(&number.to_be_bytes())?;
    }
    Ok(())
}

fn put_children(out: &mut Vec<u8>, children: &[FsChild]) -> Result<(), AllocError>
    ensures { OnOk result (out.new.items ≡ out.old.items ++ flat_map (λ e. sized w8 e.0 ++ fs_entry_bytes e.1) (children_seen children.now)) }
{
    for child in children {
        put_child(out, child)?;
    }
    Ok(())
}

fn put_child(out: &mut Vec<u8>, child: &FsChild) -> Result<(), AllocError>
    ensures { OnOk result (out.new.items ≡ out.old.items ++ (sized w8 child.now.name ++ fs_entry_bytes (entry_seen child.now.entry))) }
{
    child.name.put_sized(out)?;
    put_entry(out, &child.entry)
}

fn put_entry(out: &mut Vec<u8>, entry: &FsEntry) -> Result<(), AllocError>
    ensures { OnOk result (out.new.items ≡ out.old.items ++ fs_entry_bytes (entry_seen entry.now)) }
{
    match entry {
        FsEntry::File {
            content,
            kind,
            size,
        } => {
            out.push(0)?;
            out.push(kind.to_byte())?;
            out.extend_from_slice(&size.to_be_bytes())?;
            out.extend_from_slice(content.as_bytes())?;
        }
        FsEntry::Directory { id, summary } => {
            out.push(1)?;
            out.extend_from_slice(id.as_bytes())?;
            put_summary(out, summary)?;
        }
    }
    Ok(())
}
