//! Files that are copied to the second version, and copies that a call stops.
use blob_disk::{CallKind, MemDisk};
use migration::{MigrateFault, migrate};
use repo_journal::{Journal, Opening};
use std::alloc::{AllocError, Global};
use std::process::Abort;
use std::test::Fail;

// A file of the first version with the content `abc`.
const FIRST: &[u8] = b"BONSAI\x00\x01\x00\x00\x00\x00\x00\x01\x00\x00\x01\x00\x00\x00\x04Babc\x00";

// The same in the second version.
const SECOND: &[u8] = b"BONSAI\x00\x02\x00\x00\x00\x00\x00\x01\x00\x00\x01\x00\x00\x00\x04Babc\x00";

const OPENED: Opening = Opening {
    moment: 0,
    length: 1,
    faults: 0,
};

type Failing = Option<(CallKind, u64)>;

// A disk with a file of these bytes, of which this call fails.
fn disk_of(alloc: Global, file: &[u8], fails: Failing) -> Result<MemDisk, AllocError> {
    let mut calls = Vec::new(alloc);
    if let Some(call) = fails {
        calls.push(call)?;
    }
    MemDisk::holding(alloc, file, 64_u64.max(file.len() as u64), calls)
}

// What a copy answered, and what it left of the file and of the new one.
#[derive(Drop)]
struct Left {
    answer: Result<(), MigrateFault>,
    old: MemDisk,
    new: MemDisk,
}

// Copies a file of these bytes to an empty one, where these calls of their disks fail.
fn copied(
    rt: &(impl Abort + Alloc<A = Global>),
    file: &[u8],
    fails: [Failing; 2],
) -> Result<Left, AllocError> {
    let alloc = rt.alloc();
    let [of_old, of_new] = fails;
    let mut old = disk_of(alloc, file, of_old)?;
    let mut new = disk_of(alloc, &[], of_new)?;
    let journal = Journal::new(alloc, 65_536, 26, OPENED);
    assert!(rt; old.bytes().len() >= 26);
    let answer = migrate(&journal, &mut old, &mut new);
    Ok(Left { answer, old, new })
}

#[test]
fn a_copy_differs_in_its_mark_alone(rt: HostRuntime) -> Result<(), Fail> {
    for file in [FIRST, SECOND] {
        let came = copied(&rt, file, [None, None])?;
        assert_eq!(rt; came.answer, Ok(()));
        assert_eq!(rt; came.new.bytes(), SECOND);
        assert_eq!(rt; came.old.bytes(), file);
    }
    Ok(())
}

// The calls of the new file's disk: it is asked for its size, the header is written and synced, then the records and the
// gate, and last the mark.
const CALLS: [(CallKind, u64); 8] = [
    (CallKind::Size, 0),
    (CallKind::Write, 0),
    (CallKind::Sync, 0),
    (CallKind::Write, 1),
    (CallKind::Write, 2),
    (CallKind::Sync, 1),
    (CallKind::Write, 3),
    (CallKind::Sync, 2),
];

// The old file stands, and the new one has no mark.
fn check_stop(
    rt: &(impl Abort + Alloc<A = Global>),
    fails: [Failing; 2],
    answer: MigrateFault,
) -> Result<(), AllocError> {
    let came = copied(rt, FIRST, fails)?;
    assert_eq!(rt; came.answer, Err(answer), "{fails:?}");
    assert_eq!(rt; came.old.crash(66).bytes(), FIRST, "{fails:?}");
    assert!(rt;
        !came.new.crash(66).bytes().starts_with(b"BONSAI"),
        "{fails:?}"
    );
    Ok(())
}

#[test]
fn a_copy_that_is_stopped_has_no_mark(rt: HostRuntime) -> Result<(), Fail> {
    for call in CALLS {
        check_stop(&rt, [None, Some(call)], MigrateFault::NewFault)?;
    }
    let read = Some((CallKind::Read, 0));
    check_stop(&rt, [read, None], MigrateFault::OldFault)?;
    Ok(())
}
