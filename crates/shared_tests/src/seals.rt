//! Changes of two seats that wait for one seal, in the turns of the repository itself.
use crate::repository::{entries_in, new_repository, recorded_repository};
use blob_disk::{CallKind, Disk, MemDisk};
use object_id::Id;
use repo_calls::Ask;
use repo_state::RepoState;
use std::alloc::Global;
use std::test::Fail;

// Enters a content for a seat, and tells whether it was granted.
fn enters<D: Disk>(alloc: Global, state: &mut RepoState<D>, who: u64, bytes: &[u8]) -> bool {
    state.store(alloc, who, &Ask::PutContent(bytes)).is_ok()
}

// Sees to it that all is sealed, for a seat, and tells whether it is.
fn seals<D: Disk>(state: &mut RepoState<D>, who: u64) -> bool {
    let stored = state.stored_length();
    state.seal(who, stored).is_ok()
}

// What the seats 1 and 2 are told: of the entry of each, and of its seal.
fn seal_both<D: Disk>(alloc: Global, state: &mut RepoState<D>) -> [bool; 4] {
    let first = enters(alloc, state, 1, b"abc");
    let second = enters(alloc, state, 2, b"");
    [first, second, seals(state, 1), seals(state, 2)]
}

// Whether a content is read.
fn is_read<D: Disk>(alloc: Global, state: &mut RepoState<D>, bytes: &[u8]) -> bool {
    match state.content(alloc, 3, Id::of(bytes)) {
        Ok(found) => found.as_slice() == bytes,
        Err(_) => false,
    }
}

// The file of a new repository of 65,536 bytes in which both contents were sealed: the mark, the capacity, and two records
// behind open gates, each a length and a payload, with a closed gate behind them.
const WITH_BOTH: &[u8] =
    b"BONSAI\x00\x02\x00\x00\x00\x00\x00\x01\x00\x00\x01\x00\x00\x00\x04Babc\x01\x00\x00\x00\x01B\x00";

// A new repository's file has taken three syncs.
#[test]
fn one_seal_of_two_syncs_serves_two_seats(rt: HostRuntime) -> Result<(), Fail> {
    let alloc = rt.alloc();
    let mut state = new_repository(alloc, &[])?;
    let told = seal_both(alloc, &mut state);
    assert_eq!(rt; told, [true, true, true, true]);
    assert!(rt; is_read(alloc, &mut state, b"abc"));
    let disk = state.into_disk();
    assert_eq!(rt; disk.calls(CallKind::Sync), 5);
    assert_eq!(rt; disk.bytes(), WITH_BOTH);
    Ok(())
}

// Whether a seal fails for both, where this sync fails, and how many syncs there were then.
fn fails_both(alloc: Global, sync: u64) -> Result<([bool; 4], u64), Fail> {
    let mut state = new_repository(alloc, &[sync])?;
    let told = seal_both(alloc, &mut state);
    Ok((told, state.into_disk().calls(CallKind::Sync)))
}

#[test]
fn a_seal_that_fails_does_so_for_both_seats(rt: HostRuntime) -> Result<(), Fail> {
    let first = fails_both(rt.alloc(), 3)?;
    assert_eq!(rt; first, ([true, true, false, false], 4));
    let second = fails_both(rt.alloc(), 4)?;
    assert_eq!(rt; second, ([true, true, false, false], 5));
    Ok(())
}

// The file as it reads, and as a crash leaves it that writes this byte where nothing is sure.
const FILLS: [Option<u8>; 4] = [None, Some(0), Some(1), Some(88)];

fn left(disk: MemDisk, fill: Option<u8>) -> MemDisk {
    match fill {
        Some(fill) => disk.crash(fill),
        None => disk,
    }
}

// How many entries the file has when it is opened again, where this call failed in the seal of both.
fn entries_after(
    alloc: Global,
    failing: Option<(CallKind, u64)>,
    fill: Option<u8>,
) -> Result<u64, Fail> {
    let mut state = recorded_repository(alloc, failing)?;
    let _told = seal_both(alloc, &mut state);
    entries_in(alloc, left(state.into_disk(), fill))
}

fn told_after(alloc: Global, failing: Option<(CallKind, u64)>) -> Result<String, Fail> {
    let mut told = String::new(alloc);
    for fill in FILLS {
        let entries = entries_after(alloc, failing, fill)?;
        write!(&mut told, " {entries}")?;
    }
    Ok(told)
}

// The four calls of a seal. The group is in the file where the gate of its first record reads 1.
const STOPS: [(Option<(CallKind, u64)>, &str); 5] = [
    (Some((CallKind::Write, 2)), " 0 0 0 0"),
    (Some((CallKind::Sync, 3)), " 0 0 0 0"),
    (Some((CallKind::Write, 3)), " 0 0 2 0"),
    (Some((CallKind::Sync, 4)), " 2 0 2 0"),
    (None, " 2 2 2 2"),
];

#[test]
fn a_seal_that_is_stopped_leaves_both_entries_or_none(rt: HostRuntime) -> Result<(), Fail> {
    for (failing, wanted) in STOPS {
        let told = told_after(rt.alloc(), failing)?;
        assert_eq!(rt; told.as_str(), wanted);
    }
    Ok(())
}

#[test]
fn what_waits_is_read_also_once_its_seal_failed(rt: HostRuntime) -> Result<(), Fail> {
    let alloc = rt.alloc();
    let mut state = new_repository(alloc, &[3])?;
    assert!(rt; enters(alloc, &mut state, 1, b"abc"));
    assert!(rt; is_read(alloc, &mut state, b"abc"));
    assert!(rt; !seals(&mut state, 1));
    assert!(rt; is_read(alloc, &mut state, b"abc"));
    assert!(rt; !enters(alloc, &mut state, 2, b""));
    Ok(())
}
