//! Nodes, put into parts where they are wide directories'.
ghost use Rattle.std.specs.Prelude.{◌≡◌, ◌-◌, IfOk, IfSome, Ok, take, length};
ghost use Rattle.fsnode.specs.Lookup.{entry_count as fs_count};
ghost use Rattle.unode.specs.Lookup.{entry_count as unode_count};
ghost use Rattle.deleted_node.specs.Lookup.{entry_count as deleted_count};

use crate::counts::{deleted_count_at, fs_count_at, unode_count_at};
use crate::kind::Kind;
use crate::wide::WideNode;
use deleted_node::DeletedEntry;
use fsnode::FsEntry;
use node_parts::{PartPool, parts_of};
use std::alloc::{AllocError, Global};
use unode::UnodeEntry;

// The fewest entries of which a directory is wide.
const WIDE: u32 = 16;

// The fewest bytes of an entry: the length of a name, a byte of it, and an id.
const SHORTEST_ENTRY: usize = 34;

impl WideNode {
    /// The node with these bytes, if it is a wide directory's, and its entries can be read. It goes through them once. Parts
    /// that are in the pool are shared, and others are put in.
    pub fn of(
        alloc: Global,
        bytes: &[u8],
        pool: &mut PartPool,
    ) -> Result<Option<WideNode>, AllocError>
        ensures { IfOk result (λ node. IfSome node (λ n. n ≡ bytes.now)) }
    {
        if bytes.len() / SHORTEST_ENTRY < WIDE as usize {
            return Ok(None);
        }
        if let Ok((count, entries)) = fs_count_at(bytes) {
            return fsnode_of(alloc, bytes, count, entries, pool);
        }
        if let Ok((count, entries)) = unode_count_at(bytes) {
            return unode_of(alloc, bytes, count, entries, pool);
        }
        match deleted_count_at(bytes) {
            Ok((count, entries)) => deleted_of(alloc, bytes, count, entries, pool),
            Err(_) => Ok(None),
        }
    }
}

fn fsnode_of(
    alloc: Global,
    bytes: &[u8],
    count: u32,
    entries: &[u8],
    pool: &mut PartPool,
) -> Result<Option<WideNode>, AllocError>
    requires { fs_count bytes.now ≡ Ok (count, entries.now) }
    ensures { IfOk result (λ node. IfSome node (λ n. n ≡ bytes.now)) }
{
    if count < WIDE {
        return Ok(None);
    }
    let Some(parts) = parts_of::<FsEntry>(alloc, entries, count, pool)? else {
        return Ok(None);
    };
    let front = front_of(alloc, bytes, entries)?;
    Ok(Some(WideNode {
        kind: Kind::Fsnode,
        count,
        front,
        parts,
    }))
}

fn unode_of(
    alloc: Global,
    bytes: &[u8],
    count: u32,
    entries: &[u8],
    pool: &mut PartPool,
) -> Result<Option<WideNode>, AllocError>
    requires { unode_count bytes.now ≡ Ok (count, entries.now) }
    ensures { IfOk result (λ node. IfSome node (λ n. n ≡ bytes.now)) }
{
    if count < WIDE {
        return Ok(None);
    }
    let Some(parts) = parts_of::<UnodeEntry>(alloc, entries, count, pool)? else {
        return Ok(None);
    };
    let front = front_of(alloc, bytes, entries)?;
    Ok(Some(WideNode {
        kind: Kind::Unode,
        count,
        front,
        parts,
    }))
}

fn deleted_of(
    alloc: Global,
    bytes: &[u8],
    count: u32,
    entries: &[u8],
    pool: &mut PartPool,
) -> Result<Option<WideNode>, AllocError>
    requires { deleted_count bytes.now ≡ Ok (count, entries.now) }
    ensures { IfOk result (λ node. IfSome node (λ n. n ≡ bytes.now)) }
{
    if count < WIDE {
        return Ok(None);
    }
    let Some(parts) = parts_of::<DeletedEntry>(alloc, entries, count, pool)? else {
        return Ok(None);
    };
    let front = front_of(alloc, bytes, entries)?;
    Ok(Some(WideNode {
        kind: Kind::Deleted,
        count,
        front,
        parts,
    }))
}

// What stands before the entries.
fn front_of(alloc: Global, bytes: &[u8], entries: &[u8]) -> Result<Vec<u8>, AllocError>
    ensures { IfOk result (λ front. front.items ≡ take (length bytes.now - length entries.now) bytes.now) }
{
    let (front, _) = bytes.split_at(bytes.len().saturating_sub(entries.len()));
    Vec::from_slice(alloc, front)
}
