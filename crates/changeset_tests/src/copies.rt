//! Changesets of the second version, which tell where files were copied from.
use crate::bytes::{changed, id_of_hex, of_hex};
use crate::samples::{CHANGESET, COPY, COPY_AT_1000, COPY_AT_LAST, COPY_ID, OLD};
use bonsai::{Change, Changeset, Commit, DecodeFault, Version, decode, encode};
use std::alloc::Global;
use std::test::Fail;

// A place in it, the byte that is put there, and where the fault is: a third flag, a parent that isn't there, an empty
// path, and one that is cut off.
const BAD_FIELDS: [(usize, u8, usize); 4] = [
    (103, 2, 103),
    (104, 1, 104),
    (106, 0, 105),
    (106, 2, 107),
];

fn place(alloc: Global, bytes: &[u8]) -> Option<usize> {
    match decode(alloc, bytes) {
        Err(DecodeFault::BadEncoding { at }) => Some(at),
        Ok(_) | Err(_) => None,
    }
}

fn place_in_changed(alloc: Global, at: usize, byte: u8) -> Option<usize> {
    let bytes = changed(alloc, &of_hex(alloc, COPY), at, byte).ok()?;
    place(alloc, &bytes)
}

fn copy(alloc: Global) -> Option<Changeset> {
    decode(alloc, &of_hex(alloc, COPY)).ok()
}

fn tells_its_source(changeset: &Changeset) -> bool {
    changeset.edits().iter().all(|edit| match &edit.change {
        Change::Set {
            copied: Some(source),
            ..
        } => source.parent == 0 && source.path.as_str() == "p",
        Change::Set { copied: None, .. } | Change::Delete => false,
    })
}

fn is_spelled(alloc: Global, changeset: &Changeset) -> bool {
    encode(alloc, changeset).is_ok_and(|bytes| bytes == of_hex(alloc, COPY))
}

// The same file, set and not copied.
fn no_copy(alloc: Global) -> Option<Changeset> {
    let bytes = changed(alloc, &of_hex(alloc, COPY), 103, 0).ok()?;
    decode(alloc, bytes.get(..104)?).ok()
}

fn of_version(alloc: Global, version: u8) -> Option<Changeset> {
    let bytes = changed(alloc, &of_hex(alloc, CHANGESET), 1, version).ok()?;
    decode(alloc, &bytes).ok()
}

fn is_copied(alloc: Global, changeset: &Changeset) -> bool {
    changeset.copy(alloc).is_ok_and(|same| same == *changeset)
}

// The id that it has when it is landed on `OLD` at a moment.
fn has_id_at(alloc: Global, changeset: &Changeset, moment: u64, wanted: &str) -> bool {
    if !changeset.keeps_on_parent() {
        return false;
    }
    let Ok(landed) = changeset.with_parent(alloc, id_of_hex(OLD), moment) else {
        return false;
    };
    Commit::of(alloc, landed).is_ok_and(|commit| commit.id() == id_of_hex(wanted))
}

#[test]
fn a_copy_is_read_and_landed(rt: HostRuntime) -> Result<(), Fail> {
    let alloc = rt.alloc();
    let copy = copy(alloc).ok_or("a changeset")?;
    assert!(rt; copy.version() == Version::Second);
    assert!(rt; tells_its_source(&copy));
    assert!(rt; is_spelled(alloc, &copy));
    assert!(rt; has_id_at(alloc, &copy, 0, COPY_ID));
    assert!(rt; has_id_at(alloc, &copy, 1000, COPY_AT_1000));
    assert!(rt; has_id_at(alloc, &copy, u64::MAX, COPY_AT_LAST));
    Ok(())
}

#[test]
fn the_source_and_the_version_tell_apart(rt: HostRuntime) -> Result<(), Fail> {
    let alloc = rt.alloc();
    let copy = copy(alloc).ok_or("a changeset")?;
    assert!(rt; is_copied(alloc, &copy));
    assert!(rt; copy != no_copy(alloc).ok_or("a changeset")?);
    assert!(rt; of_version(alloc, 1) != of_version(alloc, 2));
    Ok(())
}

#[test]
fn fields_of_a_copy_that_break_their_rule(rt: HostRuntime) {
    for (at, byte, want) in BAD_FIELDS {
        let place = place_in_changed(rt.alloc(), at, byte);
        assert_eq!(rt; place, Some(want), "at {at}");
    }
}
