//! Nodes in a table, read by their ids.
ghost use Rattle.std.specs.Prelude.{◌≡◌, IfOk, option_map};
ghost use Rattle.std.specs.Ordering.{nat_cmp};
ghost use Rattle.std.specs.Cmp.Lexicographic.{slice_cmp};
ghost use Rattle.std.specs.FinMap.{find as find_key};
ghost use Rattle.manifest_laws.specs.Entries.{fs_entry_at, unode_entry_at};
ghost use Rattle.fsnode.specs.Parts.{entry_seen as fs_entry_seen, children_seen as fs_children_seen};
ghost use Rattle.fsnode.specs.Views.{fsnode_seen};
ghost use Rattle.unode.specs.Parts.{entry_seen as unode_entry_seen, children_seen as unode_children_seen};
ghost use Rattle.unode.specs.Views.{manifest_seen};
ghost use Rattle.derive_step.specs.Views.{before_seen};
ghost use Rattle.manifest_store.specs.Nodes.{fsnode_under as fsnode_in_table, manifest_under as manifest_in_table, dir_under as dir_in_table, child_ids as ids_of_child};

use derive_step::{DirIds, DirNodes};
use fsnode::{FsChild, FsEntry, Fsnode};
use node_fields::NodeFault;
use node_table::NodeTable;
use object_id::Id;
use std::alloc::{AllocError, Global};
use unode::{Unode, UnodeChild, UnodeEntry, UnodeManifest};

/// The fsnode under an id.
pub(crate) fn fsnode_under(
    alloc: Global,
    table: &NodeTable,
    id: &Id,
) -> Result<Option<Fsnode>, AllocError>
    ensures { IfOk result (λ node. option_map fsnode_seen node ≡ fsnode_in_table table.now.nodes id.now) }
{
    let Some(bytes) = table.get(alloc, id)? else {
        return Ok(None);
    };
    match fsnode::decode(alloc, bytes.as_slice()) {
        Ok(node) => Ok(Some(node)),
        Err(NodeFault::BadNode { .. }) => Ok(None),
        Err(NodeFault::Memory) => Err(AllocError),
    }
}

/// The unode of a directory under an id.
pub(crate) fn manifest_under(
    alloc: Global,
    table: &NodeTable,
    id: &Id,
) -> Result<Option<UnodeManifest>, AllocError>
    ensures { IfOk result (λ node. option_map manifest_seen node ≡ manifest_in_table table.now.nodes id.now) }
{
    let Some(bytes) = table.get(alloc, id)? else {
        return Ok(None);
    };
    match unode::decode(alloc, bytes.as_slice()) {
        Ok(Unode::Manifest(node)) => Ok(Some(node)),
        Ok(Unode::File(_)) | Err(NodeFault::BadNode { .. }) => Ok(None),
        Err(NodeFault::Memory) => Err(AllocError),
    }
}

/// Both nodes of a directory.
pub(crate) fn dir_under(
    alloc: Global,
    table: &NodeTable,
    ids: &DirIds,
) -> Result<Option<DirNodes>, AllocError>
    ensures { IfOk result (λ nodes. option_map before_seen nodes ≡ dir_in_table table.now.nodes ids.now) }
{
    let Some(fsnode) = fsnode_under(alloc, table, &ids.fsnode)? else {
        return Ok(None);
    };
    let Some(unode) = manifest_under(alloc, table, &ids.unode)? else {
        return Ok(None);
    };
    Ok(Some(DirNodes {
        fsnode,
        unode,
        unode_id: ids.unode,
    }))
}

/// The ids of the nodes of a directory in this one.
pub(crate) fn child_ids(nodes: &DirNodes, name: &[u8]) -> Option<DirIds>
    ensures { result ≡ ids_of_child (before_seen nodes.now) name.now }
{
    let FsEntry::Directory { id, .. } = fs_entry(&nodes.fsnode, name)? else {
        return None;
    };
    let UnodeEntry::Directory(unode) = unode_entry(&nodes.unode, name)? else {
        return None;
    };
    Some(DirIds { fsnode: id, unode })
}

/// The entry of a name in an fsnode.
pub(crate) fn fs_entry(node: &Fsnode, name: &[u8]) -> Option<FsEntry>
    ensures { option_map fs_entry_seen result ≡ fs_entry_at (fsnode_seen node.now) name.now }
{
    fs_entry_among(&node.entries, name)
}

fn fs_entry_among(children: &[FsChild], name: &[u8]) -> Option<FsEntry>
    ensures { option_map fs_entry_seen result ≡ find_key (slice_cmp nat_cmp) name.now (fs_children_seen children.now) }
{
    for child in children {
        if child.name.as_bytes() == name {
            return Some(child.entry);
        }
    }
    None
}

/// The entry of a name in the unode of a directory.
pub(crate) fn unode_entry(node: &UnodeManifest, name: &[u8]) -> Option<UnodeEntry>
    ensures { option_map unode_entry_seen result ≡ unode_entry_at (manifest_seen node.now) name.now }
{
    unode_entry_among(&node.entries, name)
}

fn unode_entry_among(children: &[UnodeChild], name: &[u8]) -> Option<UnodeEntry>
    ensures { option_map unode_entry_seen result ≡ find_key (slice_cmp nat_cmp) name.now (unode_children_seen children.now) }
{
    for child in children {
        if child.name.as_bytes() == name {
            return Some(child.entry);
        }
    }
    None
}
