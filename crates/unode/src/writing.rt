//! Writing a unode.
ghost use Rattle.std.specs.Prelude.{◌≡◌, ◌++◌, [], ◌∷◌, length, flat_map, true, OnOk, IfOk};
ghost use Rattle.std.specs.List.{concat, list_all};
ghost use Rattle.std.specs.Int.{w8};
ghost use Rattle.byte_fields.specs.Bytes.{sized, is_bytes};
ghost use Rattle.manifest_model.specs.Unode.{unode_entry_bytes, unode_bytes, is_unode};
ghost use Rattle.unode.specs.Parts.{parents_seen, entry_seen, children_seen, file_seen};
ghost use Rattle.unode.specs.Views.{manifest_seen, unode_seen};

use crate::entry::{UnodeChild, UnodeEntry};
use crate::file::FileUnode;
use crate::manifest::UnodeManifest;
use crate::node::Unode;
use crate::parents::Parents;
use object_id::Id;
use std::alloc::{AllocError, Global};

// The bytes of a unode beside its entries and the names in them, at most: of a file's, and of a directory's.
const FILE: usize = 164;

const MANIFEST: usize = 103;

// The bytes of an entry beside its name.
const ENTRY: usize = 34;

/// The one spelling of a unode.
pub fn encode(alloc: Global, node: &Unode) -> Result<Vec<u8>, AllocError>
    ensures spelling { IfOk result (λ bytes. bytes.items ≡ unode_bytes (unode_seen node.now)) }
    ensures valid { OnOk result (is_unode (unode_seen node.now) ≡ true) }
{
    match node {
        Unode::Manifest(manifest) => encode_manifest(alloc, manifest),
        Unode::File(file) => encode_file(alloc, file),
    }
}

fn encode_manifest(alloc: Global, manifest: &UnodeManifest) -> Result<Vec<u8>, AllocError>
    ensures { IfOk result (λ bytes. bytes.items ≡ unode_bytes (manifest_seen manifest.now)) }
{
    let mut out = Vec::with_capacity(alloc, room_for(&manifest.entries))?;
    put_head(&mut out, 0x55, manifest.parents)?;
    put_id(&mut out, &manifest.linknode)?;
    out.extend_from_slice(&(manifest.entries.len() as u32).to_be_bytes())?;
    put_children(&mut out, &manifest.entries)?;
    Ok(out)
}

// How many bytes the unode of a directory with these entries has at most, for which there is room then from the start.
fn room_for(children: &[UnodeChild]) -> usize {
    let mut room = MANIFEST;
    for child in children {
        room = room.saturating_add(ENTRY + child.name.as_bytes().len());
    }
    room
}

fn encode_file(alloc: Global, file: &FileUnode) -> Result<Vec<u8>, AllocError>
    ensures spelling { IfOk result (λ bytes. bytes.items ≡ unode_bytes (file_seen file.now)) }
    ensures valid { OnOk result (is_unode (file_seen file.now) ≡ true) }
{
    let mut out = Vec::with_capacity(alloc, FILE)?;
    put_head(&mut out, 0x56, file.parents)?;
    put_id(&mut out, &file.content)?;
    out.push(file.kind.to_byte())?;
    put_id(&mut out, &file.path_hash)?;
    put_id(&mut out, &file.linknode)?;
    Ok(out)
}

// The mark, the version, and the parents behind their count.
fn put_head(out: &mut Vec<u8>, mark: u8, parents: Parents) -> Result<(), AllocError>
    ensures written { OnOk result (out.new.items ≡ out.old.items ++ (mark ∷ 1 ∷ length (parents_seen parents) ∷ concat (parents_seen parents))) }
    ensures whole { OnOk result (list_all (is_bytes 32) (parents_seen parents) ≡ true) }
{
    match parents {
        Parents::Absent => out.extend_from_slice(&[mark, 1, 0]),
        Parents::One(parent) => {
            out.extend_from_slice(&[mark, 1, 1])?;
            put_id(out, &parent)
        }
        Parents::Two(first, second) => {
            out.extend_from_slice(&[mark, 1, 2])?;
            put_id(out, &first)?;
            put_id(out, &second)
        }
    }
}

fn put_children(out: &mut Vec<u8>, children: &[UnodeChild]) -> Result<(), AllocError>
    ensures { OnOk result (out.new.items ≡ out.old.items ++ flat_map (λ e. sized w8 e.0 ++ unode_entry_bytes e.1) (children_seen children.now)) }
{
    for child in children {
        put_child(out, child)?;
    }
    Ok(())
}

fn put_child(out: &mut Vec<u8>, child: &UnodeChild) -> Result<(), AllocError>
    ensures { OnOk result (out.new.items ≡ out.old.items ++ (sized w8 child.now.name ++ unode_entry_bytes (entry_seen child.now.entry))) }
{
    child.name.put_sized(out)?;
    match child.entry {
        UnodeEntry::File(id) => put_entry(out, 0, id),
        UnodeEntry::Directory(id) => put_entry(out, 1, id),
    }
}

fn put_entry(out: &mut Vec<u8>, tag: u8, id: Id) -> Result<(), AllocError>
    ensures { OnOk result (out.new.items ≡ out.old.items ++ (tag ∷ id)) }
{
    out.push(tag)?;
    put_id(out, &id)
}

fn put_id(out: &mut Vec<u8>, id: &Id) -> Result<(), AllocError>
    ensures written { OnOk result (out.new.items ≡ out.old.items ++ id.now) }
    ensures whole { OnOk result (is_bytes 32 id.now ≡ true) }
{
    out.extend_from_slice(id.as_bytes())
}
