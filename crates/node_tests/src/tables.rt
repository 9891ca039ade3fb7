//! A table of nodes and of settled changesets.
use node_table::{Node, NodeTable, Roots, TableFault};
use object_id::Id;
use std::alloc::Global;

fn roots_of(text: &[u8]) -> Roots {
    Roots {
        fsnode: Id::of(text),
        unode: Id::of(text),
        deleted: Id::of(text),
    }
}

fn insert(alloc: Global, table: &mut NodeTable, text: &[u8]) -> Result<Id, TableFault> {
    table.insert(Vec::from_slice(alloc, text)?)
}

// Settles a changeset that has one node.
fn settle(
    alloc: Global,
    table: &mut NodeTable,
    number: u32,
    text: &[u8],
) -> Result<(), TableFault> {
    let node = Node::of(Vec::from_slice(alloc, text)?);
    let mut nodes = Vec::new(alloc);
    nodes.push(node)?;
    table.settle(alloc, number, roots_of(text), nodes)
}

fn has(alloc: Global, table: &NodeTable, text: &[u8]) -> bool {
    match table.get(alloc, &Id::of(text)) {
        Ok(Some(node)) => node.as_slice() == text,
        _ => false,
    }
}

// Two different nodes with one digest can't be made, so that a collision is refused is only proved.
#[test]
fn nodes(rt: HostRuntime) {
    let mut table = NodeTable::new(rt.alloc());
    assert!(rt; !has(rt.alloc(), &table, b"one"));
    for text in [b"one", b"two", b"one"] {
        assert_eq!(rt; insert(rt.alloc(), &mut table, text), Ok(Id::of(text)));
    }
    assert!(rt; has(rt.alloc(), &table, b"one"));
    assert!(rt; has(rt.alloc(), &table, b"two"));
    assert!(rt; !has(rt.alloc(), &table, b"six"));
}

#[test]
fn changesets(rt: HostRuntime) {
    let mut table = NodeTable::new(rt.alloc());
    // The last is settled already, so it stays as it is.
    for (number, text) in [(7, b"six"), (3, b"ten"), (7, b"new")] {
        assert_eq!(rt; settle(rt.alloc(), &mut table, number, text), Ok(()));
    }
    assert_eq!(rt; table.settled(), [7, 3].as_slice());
    for (number, roots) in [
        (7, Some(roots_of(b"six"))),
        (3, Some(roots_of(b"ten"))),
        (0, None),
    ] {
        assert_eq!(rt; table.roots(number), roots, "of {number}");
    }
    assert!(rt; has(rt.alloc(), &table, b"six"));
    assert!(rt; has(rt.alloc(), &table, b"ten"));
    assert!(rt; !has(rt.alloc(), &table, b"new"));
}
