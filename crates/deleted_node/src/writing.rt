//! Writing a deleted node.
ghost use Rattle.std.specs.Prelude.{◌≡◌, ◌++◌, true, flat_map, OnOk, IfOk};
ghost use Rattle.std.specs.Int.{w8};
ghost use Rattle.byte_fields.specs.Bytes.{sized};
ghost use Rattle.history_model.specs.Journal.{optional_id};
ghost use Rattle.manifest_model.specs.Deleted.{deleted_bytes, is_deleted};
ghost use Rattle.deleted_node.specs.Parts.{children_seen};
ghost use Rattle.deleted_node.specs.Views.{deleted_seen};

use crate::entry::DeletedChild;
use crate::node::DeletedNode;
use object_id::Id;
use std::alloc::{AllocError, Global};

// The bytes of a deleted node before its entries, at most, and of an entry beside its name.
const HEAD: usize = 39;

const ENTRY: usize = 33;

/// The one spelling of a deleted node.
pub fn encode(alloc: Global, node: &DeletedNode) -> Result<Vec<u8>, AllocError>
    ensures spelling { IfOk result (λ bytes. bytes.items ≡ deleted_bytes (deleted_seen node.now)) }
    ensures valid { is_deleted (deleted_seen node.now) ≡ true }
{
    let mut out = Vec::with_capacity(alloc, room_for(&node.entries))?;
    out.extend_from_slice(&[0x44, 1])?;
    put_link(&mut out, node.link)?;
    out.extend_from_slice(&(node.entries.len() as u32).to_be_bytes())?;
    put_children(&mut out, &node.entries)?;
    Ok(out)
}

// How many bytes the node with these entries has at most, for which there is room then from the start.
fn room_for(children: &[DeletedChild]) -> usize {
    let mut room = HEAD;
    for child in children {
        room = room.saturating_add(ENTRY + child.name.as_bytes().len());
    }
    room
}

// An id that may be absent, with its flag.
fn put_link(out: &mut Vec<u8>, link: Option<Id>) -> Result<(), AllocError>
    ensures { OnOk result (out.new.items ≡ out.old.items ++ optional_id link) }
{
    match link {
        None => out.push(0)?,
        Some(id) => {
            out.push(1)?;
            out.extend_from_slice(id.as_bytes())?;
        }
    }
    Ok(())
}

fn put_children(out: &mut Vec<u8>, children: &[DeletedChild]) -> Result<(), AllocError>
    ensures { OnOk result (out.new.items ≡ out.old.items ++ flat_map (λ e. sized w8 e.0 ++ e.1) (children_seen children.now)) }
{
    for child in children {
        put_child(out, child)?;
    }
    Ok(())
}

fn put_child(out: &mut Vec<u8>, child: &DeletedChild) -> Result<(), AllocError>
    ensures { OnOk result (out.new.items ≡ out.old.items ++ (sized w8 child.now.name ++ child.now.entry.id)) }
{
    child.name.put_sized(out)?;
    out.extend_from_slice(child.entry.id.as_bytes())
}
