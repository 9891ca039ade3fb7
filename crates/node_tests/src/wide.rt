//! A directory of many files.
use fsnode::FsEntry;
use node_table::{Node, NodeTable, Roots};
use object_id::Id;
use std::alloc::{AllocError, Global};
use std::test::Fail;

// The fsnode of the files 0000, 0001 and so on, each of its own name as the content, but for one of which it is `new`.
fn fsnode_with(alloc: Global, files: u32, new: u32) -> Result<Vec<u8>, AllocError> {
    let mut bytes = Vec::new(alloc);
    bytes.extend_from_slice(&[0x46, 1])?;
    bytes.extend_from_slice(&[0; 40])?;
    bytes.extend_from_slice(&files.to_be_bytes())?;
    for number in 0..files {
        let name = format!(in alloc; "{number:04}")?;
        let content = if number == new {
            Id::of(b"new")
        } else {
            Id::of(name.as_bytes())
        };
        bytes.push(4)?;
        bytes.extend_from_slice(name.as_bytes())?;
        bytes.push(0)?;
        bytes.extend_from_slice(&[0; 9])?;
        bytes.extend_from_slice(content.as_bytes())?;
    }
    Ok(bytes)
}

fn settle(alloc: Global, table: &mut NodeTable, number: u32, bytes: &[u8]) -> Result<(), Fail> {
    let id = Id::of(bytes);
    let roots = Roots {
        fsnode: id,
        unode: id,
        deleted: id,
    };
    let mut nodes = Vec::new(alloc);
    nodes.push(Node::of(Vec::from_slice(alloc, bytes)?))?;
    match table.settle(alloc, number, roots, nodes) {
        Ok(()) => Ok(()),
        Err(_) => Err(Fail::from("not settled")),
    }
}

fn content(table: &NodeTable, bytes: &[u8], name: &str) -> Option<Id> {
    match table.fs_entry(&Id::of(bytes), name)? {
        FsEntry::File { content, .. } => Some(content),
        FsEntry::Directory { .. } => None,
    }
}

// Both versions of so many files are read byte for byte, and each has its own content of the changed file.
fn two_versions_of(alloc: Global, files: u32, changed: u32) -> Result<(), Fail> {
    let mut table = NodeTable::new(alloc);
    let first = fsnode_with(alloc, files, files)?;
    let second = fsnode_with(alloc, files, changed)?;
    settle(alloc, &mut table, 1, &first)?;
    settle(alloc, &mut table, 2, &second)?;
    let name = format!(in alloc; "{changed:04}")?;
    is_version(alloc, &table, &first, &name, Id::of(name.as_bytes()))?;
    is_version(alloc, &table, &second, &name, Id::of(b"new"))
}

// A version is read byte for byte. It has this content under the name, each other file's own, and no other files.
fn is_version(
    alloc: Global,
    table: &NodeTable,
    bytes: &[u8],
    name: &str,
    set: Id,
) -> Result<(), Fail> {
    match table.get(alloc, &Id::of(bytes))? {
        Some(node) if node.as_slice() == bytes => (),
        _ => return Err(Fail::from("other bytes")),
    }
    if content(table, bytes, name) != Some(set) {
        return Err(Fail::from("another content of the changed file"));
    }
    for other in ["0000", "0001", "0013"] {
        if content(table, bytes, other) != Some(Id::of(other.as_bytes())) {
            return Err(Fail::from("another content of a file that wasn't changed"));
        }
    }
    for other in ["", "000", "00000", "0007a", "9999"] {
        if content(table, bytes, other).is_some() {
            return Err(Fail::from("a file that isn't there"));
        }
    }
    Ok(())
}

// From the fewest that are kept in parts, over the fewest that are many, to more.
#[test]
fn two_versions(rt: HostRuntime) -> Result<(), Fail> {
    let alloc = rt.alloc();
    for files in [15, 16, 17, 100, 1000, 2047, 2048, 3000] {
        two_versions_of(alloc, files, files - 1)?;
    }
    for changed in [2, 12, 14] {
        two_versions_of(alloc, 40, changed)?;
    }
    Ok(())
}
