//! Unodes of files and directories.
use crate::bytes::of_hex;
use crate::nodes::{FILE, FILE_WITH_PARENT, MANIFEST, MERGED_FILE};
use bonsai::FileKind;
use object_id::Id;
use std::alloc::Global;
use unode::{FileUnode, Parents, Unode, UnodeEntry, decode, decode_file, encode};

fn is_written_as_read(alloc: Global, text: &str) -> bool {
    let bytes = of_hex(alloc, text);
    match decode(alloc, &bytes) {
        Ok(node) => encode(alloc, &node).is_ok_and(|out| out == bytes),
        Err(_) => false,
    }
}

fn is_file(alloc: Global, text: &str, parents: Parents, kind: FileKind) -> bool {
    let wanted = FileUnode {
        parents,
        content: Id::of(b"abc"),
        kind,
        path_hash: Id::of(b"p"),
        linknode: Id::of(b"link"),
    };
    decode_file(&of_hex(alloc, text)) == Some(wanted)
}

fn is_no_file(alloc: Global, text: &str) -> bool {
    decode_file(&of_hex(alloc, text)).is_none()
}

fn is_under(alloc: Global, text: &str, parents: Parents) -> bool {
    match decode(alloc, &of_hex(alloc, text)) {
        Ok(node) => node.parents() == parents && node.linknode() == Id::of(b"link"),
        Err(_) => false,
    }
}

fn has_entry(alloc: Global, text: &str, name: &[u8], wanted: UnodeEntry) -> bool {
    match decode(alloc, &of_hex(alloc, text)) {
        Ok(Unode::Manifest(manifest)) => manifest.entries.iter().any(|child| child.name.as_bytes()
            == name
            && child.entry == wanted),
        Ok(Unode::File(_)) | Err(_) => false,
    }
}

fn parent() -> Parents {
    Parents::One(Id::of(b"parent"))
}

fn both() -> Parents {
    Parents::Two(Id::of(b"parent"), Id::of(b"other"))
}

#[test]
fn files(rt: HostRuntime) {
    let alloc = rt.alloc();
    assert!(rt; is_file(alloc, FILE, Parents::Absent, FileKind::Regular));
    assert!(rt; is_file(alloc, FILE_WITH_PARENT, parent(), FileKind::Symlink));
    assert!(rt; is_no_file(alloc, MANIFEST));
    assert!(rt; is_under(alloc, FILE, Parents::Absent));
    assert!(rt; is_under(alloc, FILE_WITH_PARENT, parent()));
    assert!(rt; is_written_as_read(alloc, FILE_WITH_PARENT));
}

#[test]
fn files_of_merges(rt: HostRuntime) {
    let alloc = rt.alloc();
    assert!(rt; is_file(alloc, MERGED_FILE, both(), FileKind::Executable));
    assert!(rt; is_under(alloc, MERGED_FILE, both()));
    assert!(rt; is_written_as_read(alloc, MERGED_FILE));
}

#[test]
fn manifests(rt: HostRuntime) {
    let alloc = rt.alloc();
    let inner = UnodeEntry::Directory(Id::of(b"ua"));
    let file = UnodeEntry::File(Id::of(&of_hex(alloc, FILE)));
    assert!(rt; is_under(alloc, MANIFEST, parent()));
    assert!(rt; has_entry(alloc, MANIFEST, b"a", inner));
    assert!(rt; has_entry(alloc, MANIFEST, b"b", file));
    assert!(rt; is_written_as_read(alloc, MANIFEST));
}
