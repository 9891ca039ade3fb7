//! Changesets that are read, and what they tell.
use crate::bytes::{id_of_hex, of_hex};
use crate::samples::{ABC, NEW, OLD, SET_P, SETS_P};
use bonsai::{Change, Changeset, Commit, DecodeFault, FileKind, decode, encode};
use object_id::Id;
use repo_path::RepoPath;
use std::alloc::{AllocError, Global};
use std::process::Abort;
use std::test::Fail;

/// The first 22 bytes of a changeset without parents, by `a`, at second 0, with no message. The change count follows.
const HEAD: [u8; 22] = [
    0x43, 1, 0, 0, 1, 0x61, 0, 0, 0, 0, 0, 0, 0, 0, 0, 0, 0, 0, 0, 0, 0, 0,
];

fn changeset_bytes(alloc: Global, count: u8, changes: &[u8]) -> Result<Vec<u8>, AllocError> {
    let mut bytes = Vec::from_slice(alloc, &HEAD)?;
    bytes.extend_from_slice(&[0, 0, 0, count])?;
    bytes.extend_from_slice(changes)?;
    Ok(bytes)
}

fn byte_of(length: usize) -> u8 {
    length.min(255) as u8
}

fn put_path(out: &mut Vec<u8>, path: &str) -> Result<(), AllocError> {
    out.push(0)?;
    out.push(byte_of(path.len()))?;
    out.extend_from_slice(path.as_bytes())
}

fn put_set(out: &mut Vec<u8>) -> Result<(), AllocError> {
    out.extend_from_slice(&[1, 0])?;
    out.extend_from_slice(&[0; 8])?;
    out.extend_from_slice(Id::of(b"").as_bytes())
}

// A set of some paths to nothing and a delete of the others, in the order given.
fn edits_bytes(alloc: Global, edits: &[(&str, bool)]) -> Result<Vec<u8>, AllocError> {
    let mut changes = Vec::new(alloc);
    for (path, sets) in edits {
        put_path(&mut changes, path)?;
        if *sets {
            put_set(&mut changes)?;
        } else {
            changes.push(0)?;
        }
    }
    changeset_bytes(alloc, byte_of(edits.len()), changes.as_slice())
}

// What comes of the bytes of a changeset.
#[derive(Clone, Copy, Debug, PartialEq, Eq)]
enum Outcome {
    Read,
    Bad { at: usize },
    Conflict,
    Other,
}

fn read(alloc: Global, bytes: &[u8]) -> Result<Changeset, DecodeFault> {
    decode(alloc, bytes)
}

fn outcome_of_bytes(alloc: Global, bytes: &[u8]) -> Outcome {
    let read = read(alloc, bytes);
    match &read {
        Ok(_) => Outcome::Read,
        Err(DecodeFault::BadEncoding { at }) => Outcome::Bad { at: *at },
        Err(DecodeFault::SelfConflict { short: _, long: _ }) => Outcome::Conflict,
        Err(DecodeFault::TooLong { length: _ } | DecodeFault::Memory) => Outcome::Other,
    }
}

fn outcome_of_edits(alloc: Global, edits: &[(&str, bool)]) -> Outcome {
    match edits_bytes(alloc, edits) {
        Ok(bytes) => outcome_of_bytes(alloc, &bytes),
        Err(_) => Outcome::Other,
    }
}

fn conflicts(alloc: Global, edits: &[(&str, bool)], above: &str, under: &str) -> bool {
    let Ok(bytes) = edits_bytes(alloc, edits) else {
        return false;
    };
    let read = read(alloc, &bytes);
    match &read {
        Err(DecodeFault::SelfConflict { short, long }) => {
            short.as_str() == above && long.as_str() == under
        }
        Ok(_) | Err(_) => false,
    }
}

// The changeset that sets `p` to `abc`.
fn sets_p(alloc: Global) -> Option<Changeset> {
    read(alloc, &of_hex(alloc, SETS_P)).ok()
}

fn has_id(alloc: Global, changeset: &Changeset, wanted: &str) -> bool {
    changeset.id(alloc).is_ok_and(|id| id == id_of_hex(wanted))
}

fn is_spelled(alloc: Global, changeset: &Changeset, wanted: &str) -> bool {
    encode(alloc, changeset).is_ok_and(|bytes| bytes == of_hex(alloc, wanted))
}

fn path(alloc: Global, text: &str) -> Option<RepoPath> {
    RepoPath::parse(alloc, text).ok()
}

fn change(alloc: Global, changeset: &Changeset, text: &str) -> Option<Change> {
    let path = path(alloc, text)?;
    changeset.change_at(&path)?.copy(alloc).ok()
}

fn touches(alloc: Global, changeset: &Changeset, wanted: &str) -> bool {
    match changeset.touched_paths(alloc) {
        Ok(paths) => paths.len() == 1 && paths.iter().all(|p| p.as_str() == wanted),
        Err(_) => false,
    }
}

fn moved(alloc: Global, changeset: &Changeset, parent: &str) -> Option<Changeset> {
    if !changeset.keeps_on_parent() {
        return None;
    }
    changeset.with_parent(alloc, id_of_hex(parent), 0).ok()
}

fn commit_on(alloc: Global, changeset: &Changeset, parent: &str) -> Option<Commit> {
    let moved = moved(alloc, changeset, parent)?;
    Commit::of(alloc, moved).ok()
}

fn is_commit(commit: &Commit, parents: usize, length: usize, id: &str) -> bool {
    commit.changeset().parents().len() == parents
        && commit.encoded_length() == length
        && commit.id() == id_of_hex(id)
}

// Two paths that are deleted, and what comes of it.
const DELETES: &str = "\
b a = Bad { at: 32 }
a a = Bad { at: 32 }
a b = Read
a/b a.b = Read
a.b a/b = Bad { at: 34 }
a a//b = Bad { at: 32 }";

fn deletes(alloc: Global, paths: &str) -> Outcome {
    let (first, second) = paths.split_once(' ').unwrap_or((paths, ""));
    outcome_of_edits(alloc, &[(first, false), (second, false)])
}

fn check_deletes(rt: &impl Abort, alloc: Global, row: &str) -> Result<(), Fail> {
    let (paths, wanted) = row.split_once(" = ").unwrap_or((row, ""));
    let outcome = deletes(alloc, paths);
    let told = format!(in alloc; "{outcome:?}")?;
    assert_eq!(rt; told.as_str(), wanted, "{paths}");
    Ok(())
}

#[test]
fn deletes_in_order_and_out_of_order(rt: HostRuntime) -> Result<(), Fail> {
    for row in DELETES.lines() {
        check_deletes(&rt, rt.alloc(), row)?;
    }
    Ok(())
}

#[test]
fn sets_under_sets(rt: HostRuntime) {
    let alloc = rt.alloc();
    let edits = [("a", true), ("a/b", true), ("a/b/c", true)];
    assert!(rt; conflicts(alloc, &edits, "a", "a/b"));
    let edits = [("a/b", true), ("a/b/c", false), ("a/b/c/d", true)];
    assert!(rt; conflicts(alloc, &edits, "a/b", "a/b/c/d"));
    let edits = [("a", false), ("a/b", true), ("a/bc", true)];
    assert_eq!(rt; outcome_of_edits(alloc, &edits), Outcome::Read);
}

fn tells_what_it_sets(alloc: Global, changeset: &Changeset) -> bool {
    let set = Change::Set {
        content: id_of_hex(ABC),
        kind: FileKind::Regular,
        size: 3,
        copied: None,
    };
    changeset.edits().len() == 1
        && change(alloc, changeset, "p") == Some(set)
        && change(alloc, changeset, "q").is_none()
        && touches(alloc, changeset, "p")
}

fn is_copied(alloc: Global, changeset: &Changeset) -> bool {
    changeset
        .copy(alloc)
        .is_ok_and(|copy| is_spelled(alloc, &copy, SETS_P))
}

#[test]
fn sets_a_path(rt: HostRuntime) -> Result<(), Fail> {
    let alloc = rt.alloc();
    let changeset = sets_p(alloc).ok_or("a changeset")?;
    assert!(rt; has_id(alloc, &changeset, SET_P));
    assert!(rt; tells_what_it_sets(alloc, &changeset));
    assert!(rt; is_copied(alloc, &changeset));
    let moved = commit_on(alloc, &changeset, OLD).ok_or("a commit")?;
    assert!(rt; is_commit(&moved, 1, 103, NEW));
    Ok(())
}
