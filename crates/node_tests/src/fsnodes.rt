//! Fsnodes of the worked tree.
use crate::bytes::of_hex;
use crate::nodes::{DIRECTORY, ROOT};
use bonsai::FileKind;
use fsnode::{FsEntry, Summary, decode, encode};
use object_id::Id;
use std::alloc::Global;

fn is_written_as_read(alloc: Global, text: &str) -> bool {
    let bytes = of_hex(alloc, text);
    match decode(alloc, &bytes) {
        Ok(node) => encode(alloc, &node).is_ok_and(|out| out == bytes),
        Err(_) => false,
    }
}

fn has_numbers(alloc: Global, text: &str, wanted: [u64; 5]) -> bool {
    match decode(alloc, &of_hex(alloc, text)) {
        Ok(node) => node.summary.numbers() == wanted,
        Err(_) => false,
    }
}

fn has_entry(alloc: Global, text: &str, name: &[u8], wanted: FsEntry) -> bool {
    match decode(alloc, &of_hex(alloc, text)) {
        Ok(node) => node.entries.iter().any(|child| child.name.as_bytes() == name
            && child.entry == wanted),
        Err(_) => false,
    }
}

fn directory(alloc: Global) -> FsEntry {
    let id = Id::of(&of_hex(alloc, DIRECTORY));
    let summary = Summary {
        child_files_count: 1,
        child_files_total_size: 3,
        child_dirs_count: 0,
        descendant_files_count: 1,
        descendant_files_total_size: 3,
    };
    FsEntry::Directory { id, summary }
}

fn file(bytes: &[u8], size: u64) -> FsEntry {
    let (content, kind) = (Id::of(bytes), FileKind::Regular);
    FsEntry::File {
        content,
        kind,
        size,
    }
}

#[test]
fn worked_tree(rt: HostRuntime) {
    let alloc = rt.alloc();
    assert!(rt; has_numbers(alloc, ROOT, [1, 0, 1, 2, 3]));
    assert!(rt; has_numbers(alloc, DIRECTORY, [1, 3, 0, 1, 3]));
    assert!(rt; has_entry(alloc, ROOT, b"a", directory(alloc)));
    assert!(rt; has_entry(alloc, ROOT, b"b", file(b"", 0)));
    assert!(rt; has_entry(alloc, DIRECTORY, b"x", file(b"abc", 3)));
    assert!(rt; is_written_as_read(alloc, ROOT));
    assert!(rt; is_written_as_read(alloc, DIRECTORY));
}
