//! Nodes of what was deleted, both ways. The bytes are those of an independent computation.
use deleted_node::{decode, encode, entry_in, link_in};
use object_id::Id;
use std::alloc::Global;
use std::test::Fail;

// A root under which `p` was deleted: no link, and one entry with the id of the node at `p`.
const ROOT: &str =
    "440100000000010170023048b24963347f43d4d63d61c1c31b0bb8d1525f845700ecf49e9962158243";

const GONE: &str = "023048b24963347f43d4d63d61c1c31b0bb8d1525f845700ecf49e9962158243";

fn bytes(alloc: Global, text: &str) -> Result<Vec<u8>, Fail> {
    match hex::decode(alloc, text) {
        Ok(bytes) => Ok(bytes),
        Err(_) => Err(Fail::from("hex")),
    }
}

fn id(text: &str) -> Result<Id, Fail> {
    match Id::from_hex(text) {
        Ok(id) => Ok(id),
        Err(_) => Err(Fail::from("an id")),
    }
}

// The same bytes again, by the node that they spell.
fn written_again(alloc: Global, bytes: &[u8]) -> Result<Vec<u8>, Fail> {
    match decode(alloc, bytes) {
        Ok(node) => Ok(encode(alloc, &node)?),
        Err(_) => Err(Fail::from("a node")),
    }
}

fn entry(bytes: &[u8], name: &str) -> Option<Id> {
    match entry_in(bytes, name) {
        Some(entry) => Some(entry.id),
        None => None,
    }
}

#[test]
fn a_root_leads_to_what_was_deleted(rt: HostRuntime) -> Result<(), Fail> {
    let alloc = rt.alloc();
    let root = bytes(alloc, ROOT)?;
    assert_eq!(rt; written_again(alloc, &root)?, root);
    assert_eq!(rt; entry(&root, "p"), Some(id(GONE)?));
    assert_eq!(rt; entry(&root, "q"), None);
    assert_eq!(rt; link_in(&root), None);
    Ok(())
}

#[test]
fn a_root_from_which_nothing_was_deleted(rt: HostRuntime) -> Result<(), Fail> {
    let alloc = rt.alloc();
    let root = bytes(alloc, "44010000000000")?;
    assert_eq!(rt; written_again(alloc, &root)?, root);
    let longer = bytes(alloc, "4401000000000000")?;
    assert!(rt; decode(alloc, &longer).is_err());
    Ok(())
}
