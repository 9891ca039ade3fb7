//! Where the faults of bad nodes are.
use crate::bytes::{changed, last_start, of_hex};
use crate::nodes::{DIRECTORY, FILE, FILE_WITH_PARENT, MANIFEST, MERGED_FILE, ROOT, TWO_DOTS};
use node_fields::NodeFault;
use std::alloc::Global;

// Where the fields begin.
const DIRECTORY_FIELDS: [usize; 10] = [0, 1, 2, 42, 46, 47, 48, 49, 50, 58];

const ROOT_FIELDS: [usize; 15] = [
    0, 1, 2, 42, 46, 47, 48, 49, 81, 121, 122, 123, 124, 125, 133,
];

const FILE_FIELDS: [usize; 7] = [0, 1, 2, 3, 35, 36, 68];

const FILE_WITH_PARENT_FIELDS: [usize; 8] = [0, 1, 2, 3, 35, 67, 68, 100];

const MERGED_FILE_FIELDS: [usize; 9] = [0, 1, 2, 3, 35, 67, 99, 100, 132];

const MANIFEST_FIELDS: [usize; 14] = [0, 1, 2, 3, 35, 67, 71, 72, 73, 74, 106, 107, 108, 109];

// A place, the byte that is put there, and where the fault is.
const IN_DIRECTORY: [(usize, u8, usize); 12] = [
    (0, 0x55, 0),
    (1, 2, 1),
    (46, 0, 46),
    (46, 255, 47),
    (47, b'/', 47),
    (47, 0, 47),
    (47, b'\n', 47),
    (47, b'.', 47),
    (47, 0xff, 47),
    (48, 2, 48),
    (49, 3, 49),
    (45, 2, 90),
];

// The second name must be greater than the first.
const IN_ROOT: [(usize, u8, usize); 2] = [(47, b'b', 122), (47, b'c', 122)];

const IN_MANIFEST: [(usize, u8, usize); 12] = [
    (0, 0x54, 0),
    (1, 2, 1),
    (2, 3, 2),
    (70, 3, 141),
    (70, 1, 106),
    (71, 0, 71),
    (72, b'/', 72),
    (72, b'.', 72),
    (72, b'b', 107),
    (72, b'c', 107),
    (73, 2, 73),
    (108, 0xff, 108),
];

const IN_FILE_WITH_PARENT: [(usize, u8, usize); 4] = [
    (0, 0x57, 0),
    (1, 0, 1),
    (2, 3, 2),
    (67, 3, 67),
];

#[derive(Clone, Copy)]
enum Format {
    Fsnode,
    Unode,
}

// The place of the fault.
fn place(alloc: Global, format: Format, bytes: &[u8]) -> Option<usize> {
    let fault = match format {
        Format::Fsnode => fsnode::decode(alloc, bytes).err(),
        Format::Unode => unode::decode(alloc, bytes).err(),
    };
    match fault {
        Some(NodeFault::BadNode { at }) => Some(at),
        Some(NodeFault::Memory) | None => None,
    }
}

// The first length of a front of a node whose fault is not where its last field begins.
fn wrong_front(alloc: Global, format: Format, text: &str, starts: &[usize]) -> Option<usize> {
    let bytes = of_hex(alloc, text);
    for len in 0..bytes.len() {
        let front = bytes.get(..len)?;
        if place(alloc, format, front) != Some(last_start(starts, len)) {
            return Some(len);
        }
    }
    place(alloc, format, &bytes)
}

// The first row that names another place than the fault's.
fn wrong_row(
    alloc: Global,
    format: Format,
    text: &str,
    rows: &[(usize, u8, usize)],
) -> Option<usize> {
    let bytes = of_hex(alloc, text);
    for (row, (at, byte, want)) in rows.iter().enumerate() {
        match changed(alloc, &bytes, *at, *byte) {
            Ok(other) if place(alloc, format, &other) == Some(*want) => {}
            Ok(_) | Err(_) => return Some(row),
        }
    }
    None
}

fn place_with_one_more(alloc: Global, format: Format, text: &str) -> Option<usize> {
    let mut bytes = of_hex(alloc, text);
    match bytes.push(0) {
        Ok(_) => place(alloc, format, &bytes),
        Err(_) => None,
    }
}

#[test]
fn fronts(rt: HostRuntime) {
    let alloc = rt.alloc();
    let (fsnode, unode) = (Format::Fsnode, Format::Unode);
    assert_eq!(rt;
        wrong_front(alloc, fsnode, DIRECTORY, &DIRECTORY_FIELDS),
        None
    );
    assert_eq!(rt; wrong_front(alloc, fsnode, ROOT, &ROOT_FIELDS), None);
    assert_eq!(rt; wrong_front(alloc, unode, FILE, &FILE_FIELDS), None);
    assert_eq!(rt;
        wrong_front(alloc, unode, FILE_WITH_PARENT, &FILE_WITH_PARENT_FIELDS),
        None
    );
    assert_eq!(rt;
        wrong_front(alloc, unode, MERGED_FILE, &MERGED_FILE_FIELDS),
        None
    );
    assert_eq!(rt; wrong_front(alloc, unode, MANIFEST, &MANIFEST_FIELDS), None);
}

#[test]
fn fields(rt: HostRuntime) {
    let alloc = rt.alloc();
    let (fsnode, unode) = (Format::Fsnode, Format::Unode);
    assert_eq!(rt; wrong_row(alloc, fsnode, DIRECTORY, &IN_DIRECTORY), None);
    assert_eq!(rt; wrong_row(alloc, fsnode, ROOT, &IN_ROOT), None);
    assert_eq!(rt; wrong_row(alloc, unode, MANIFEST, &IN_MANIFEST), None);
    assert_eq!(rt;
        wrong_row(alloc, unode, FILE_WITH_PARENT, &IN_FILE_WITH_PARENT),
        None
    );
}

#[test]
fn bytes_that_do_not_belong(rt: HostRuntime) {
    let alloc = rt.alloc();
    let two_dots = of_hex(alloc, TWO_DOTS);
    assert_eq!(rt; place(alloc, Format::Fsnode, &two_dots), Some(47));
    assert_eq!(rt;
        place_with_one_more(alloc, Format::Fsnode, DIRECTORY),
        Some(90)
    );
    assert_eq!(rt; place_with_one_more(alloc, Format::Unode, FILE), Some(100));
}
