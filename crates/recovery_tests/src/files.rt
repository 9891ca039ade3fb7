//! Files that are whole, changed and cut, and disks that fail.
use blob_disk::{CallKind, Disk, MemDisk};
use ports::ZeroBytes;
use recovery::{OpenFault, open};
use std::alloc::{AllocError, Global};
use std::hash::RandomState;
use std::process::Abort;
use std::test::Fail;

// A file of capacity 65,536 with the content `abc`.
const FILE: [u8; 26] =
    *b"BONSAI\x00\x01\x00\x00\x00\x00\x00\x01\x00\x00\x01\x00\x00\x00\x04Babc\x00";

/// How many entries were read, and how many bytes they take with the header and the closing gate.
#[derive(Clone, Copy, Debug, PartialEq, Eq)]
pub(crate) struct Told {
    pub(crate) entries: u64,
    pub(crate) size: u64,
}

const WHOLE: Told = Told {
    entries: 1,
    size: 26,
};

const EMPTY: Told = Told {
    entries: 0,
    size: 17,
};

const TWO: Told = Told {
    entries: 2,
    size: 35,
};

const LONG: Told = Told {
    entries: 7_000,
    size: 70_017,
};

/// What a file opens as.
pub(crate) type Came = Result<Told, OpenFault>;

fn keys() -> Result<RandomState, Fail> {
    Ok(RandomState::new(&ZeroBytes)?)
}

/// The file is damaged at this place.
pub(crate) fn damaged(at: u64) -> Came {
    Err(OpenFault::Damaged { at })
}

fn tell(alloc: Global, keys: RandomState, disk: &mut MemDisk) -> Came {
    let opened = open(alloc, keys, disk)?;
    Ok(Told {
        entries: opened.machine.history_length(),
        size: opened.journal.size(),
    })
}

fn same(rt: &impl Abort, found: Came, want: Came, row: &str) {
    assert_eq!(rt; found, want, "{row}");
}

/// The disk opens so.
pub(crate) fn check(
    rt: &impl Abort,
    alloc: Global,
    disk: &mut MemDisk,
    want: Came,
    row: &str,
) -> Result<(), Fail> {
    same(rt, tell(alloc, keys()?, disk), want, row);
    Ok(())
}

/// A disk with this file, of which the listed calls fail.
pub(crate) fn disk_of(
    alloc: Global,
    file: &[u8],
    failing: Vec<(CallKind, u64)>,
) -> Result<MemDisk, AllocError> {
    MemDisk::holding(alloc, file, file.len() as u64, failing)
}

/// A disk with this file opens so.
pub(crate) fn check_file(
    rt: &impl Abort,
    alloc: Global,
    file: &[u8],
    want: Came,
    row: &str,
) -> Result<(), Fail> {
    let mut disk = disk_of(alloc, file, Vec::new(alloc))?;
    check(rt, alloc, &mut disk, want, row)
}

/// Adds the bytes that hex digits stand for.
pub(crate) fn put_hex(out: &mut Vec<u8>, alloc: Global, text: &str) -> Result<(), AllocError> {
    match hex::decode(alloc, text) {
        Ok(bytes) => out.extend_from_slice(bytes.as_slice()),
        Err(_) => Ok(()),
    }
}

// The file with these bytes in place of its own, from a place on.
fn changed(alloc: Global, at: usize, bytes: &[u8]) -> Result<Vec<u8>, AllocError> {
    let mut file = Vec::from_slice(alloc, FILE.get(..at).unwrap_or(&[]))?;
    file.extend_from_slice(bytes)?;
    for byte in FILE.iter().skip(file.len()) {
        file.push(*byte)?;
    }
    Ok(file)
}

fn check_changed(
    rt: &impl Abort,
    alloc: Global,
    at: usize,
    bytes: &[u8],
    want: Came,
) -> Result<(), Fail> {
    let file = changed(alloc, at, bytes)?;
    let row = format!(in alloc; "{bytes:?} at {at}")?;
    check_file(rt, alloc, file.as_slice(), want, row.as_str())
}

fn check_records(rt: &impl Abort, alloc: Global) -> Result<(), Fail> {
    check_changed(rt, alloc, 0, b"", Ok(WHOLE))?;
    // a payload of no kind
    check_changed(rt, alloc, 21, b"X", damaged(16))?;
    // a gate that isn't open ends the records
    check_changed(rt, alloc, 16, b"\x02", Ok(EMPTY))?;
    // what follows the closing gate means nothing
    check_changed(rt, alloc, 26, b"\x01", Ok(WHOLE))?;
    // the same content makes no second entry
    let same = b"\x01\x00\x00\x00\x04Babc\x00";
    check_changed(rt, alloc, 25, same, damaged(25))?;
    let other = b"\x01\x00\x00\x00\x04Babd\x00";
    check_changed(rt, alloc, 25, other, Ok(TWO))?;
    // a payload longer than the file
    check_changed(rt, alloc, 17, b"\xFF\xFF\xFF\xFF", damaged(16))
}

fn check_headers(rt: &impl Abort, alloc: Global) -> Result<(), Fail> {
    // the second version, and others
    check_changed(rt, alloc, 7, b"\x02", Ok(WHOLE))?;
    check_changed(rt, alloc, 7, b"\x00", Err(OpenFault::NotARepository))?;
    check_changed(rt, alloc, 7, b"\x03", Err(OpenFault::NotARepository))?;
    // capacities of 4,095, 4,096, 34,359,738,368 and 34,359,738,369
    let capacity = b"\x00\x00\x00\x00\x00\x00\x0F\xFF";
    check_changed(rt, alloc, 8, capacity, damaged(8))?;
    let capacity = b"\x00\x00\x00\x00\x00\x00\x10\x00";
    check_changed(rt, alloc, 8, capacity, Ok(WHOLE))?;
    let capacity = b"\x00\x00\x00\x08\x00\x00\x00\x00";
    check_changed(rt, alloc, 8, capacity, Ok(WHOLE))?;
    let capacity = b"\x00\x00\x00\x08\x00\x00\x00\x01";
    check_changed(rt, alloc, 8, capacity, damaged(8))
}

#[test]
fn changed_files_are_told(rt: HostRuntime) -> Result<(), Fail> {
    check_headers(&rt, rt.alloc())?;
    check_records(&rt, rt.alloc())
}

// What the first bytes of the file open as.
fn want_of(length: usize) -> Came {
    match length {
        0..=16 => Err(OpenFault::NotARepository),
        17..=24 => damaged(16),
        25 => damaged(25),
        _ => Ok(WHOLE),
    }
}

fn check_cut(rt: &impl Abort, alloc: Global, length: usize) -> Result<(), Fail> {
    let row = format!(in alloc; "{length} bytes")?;
    let file = FILE.get(..length).ok_or("a length")?;
    check_file(rt, alloc, file, want_of(length), row.as_str())
}

#[test]
fn cut_files_are_told(rt: HostRuntime) -> Result<(), Fail> {
    for length in 0..=FILE.len() {
        check_cut(&rt, rt.alloc(), length)?;
    }
    Ok(())
}

// The file where the call of this kind with this number fails.
fn failing_disk(alloc: Global, kind: CallKind, call: u64) -> Result<MemDisk, AllocError> {
    let mut failing = Vec::new(alloc);
    failing.push((kind, call))?;
    disk_of(alloc, &FILE, failing)
}

// Opening makes fewer calls of this kind.
fn check_spared(rt: &impl Abort, alloc: Global, kind: CallKind, call: u64) -> Result<(), Fail> {
    let mut disk = failing_disk(alloc, kind, call)?;
    let row = format!(in alloc; "{kind:?} {call}")?;
    check(rt, alloc, &mut disk, Ok(WHOLE), row.as_str())
}

// The call is told, and the file opens again.
fn check_failing(rt: &impl Abort, alloc: Global, kind: CallKind, call: u64) -> Result<(), Fail> {
    let mut disk = failing_disk(alloc, kind, call)?;
    let row = format!(in alloc; "{kind:?} {call}")?;
    check(
        rt,
        alloc,
        &mut disk,
        Err(OpenFault::DiskFault),
        row.as_str(),
    )?;
    check(rt, alloc, &mut disk, Ok(WHOLE), row.as_str())
}

#[test]
fn a_failing_call_is_told(rt: HostRuntime) -> Result<(), Fail> {
    let alloc = rt.alloc();
    check_failing(&rt, alloc, CallKind::Size, 0)?;
    check_failing(&rt, alloc, CallKind::Sync, 0)?;
    // of the header, and of the records
    check_failing(&rt, alloc, CallKind::Read, 0)?;
    check_failing(&rt, alloc, CallKind::Read, 1)?;
    // no further calls are made
    check_spared(&rt, alloc, CallKind::Size, 1)?;
    check_spared(&rt, alloc, CallKind::Sync, 1)?;
    check_spared(&rt, alloc, CallKind::Read, 2)?;
    check_spared(&rt, alloc, CallKind::Write, 0)
}

// A disk with the file, whose gate was opened, and isn't on the disk yet.
fn unsynced(rt: &impl Abort, alloc: Global) -> Result<MemDisk, Fail> {
    let file = changed(alloc, 16, &[0])?;
    let mut disk = disk_of(alloc, file.as_slice(), Vec::new(alloc))?;
    assert!(rt; disk.bytes().len() > 16);
    assert!(rt; disk.write_at(16, &[1]).is_ok());
    Ok(disk)
}

fn crashed(disk: MemDisk) -> MemDisk {
    disk.crash(b'X')
}

// What is told of the gate must stay so through a crash.
#[test]
fn what_is_told_outlasts_a_crash(rt: HostRuntime) -> Result<(), Fail> {
    let mut disk = unsynced(&rt, rt.alloc())?;
    check(&rt, rt.alloc(), &mut disk, Ok(WHOLE), "before")?;
    let mut left = crashed(disk);
    check(&rt, rt.alloc(), &mut left, Ok(WHOLE), "after")
}

fn put_record(file: &mut Vec<u8>, number: u32) -> Result<(), AllocError> {
    file.extend_from_slice(b"\x01\x00\x00\x00\x05B")?;
    file.extend_from_slice(&number.to_be_bytes())
}

fn put_records(file: &mut Vec<u8>) -> Result<(), AllocError> {
    for number in 0..7_000u32 {
        put_record(file, number)?;
    }
    Ok(file.push(0)?)
}

// The header, with another sixth byte of the capacity, and behind it 7,000 records of 10 bytes.
fn long_file(alloc: Global, capacity: u8) -> Result<Vec<u8>, AllocError> {
    let mut file = Vec::from_slice(alloc, &FILE[..13])?;
    file.extend_from_slice(&[capacity, 0, 0])?;
    put_records(&mut file)?;
    Ok(file)
}

fn check_long(
    rt: &impl Abort,
    alloc: Global,
    capacity: u8,
    want: Came,
    reads: u64,
) -> Result<(), Fail> {
    let file = long_file(alloc, capacity)?;
    let mut disk = disk_of(alloc, file.as_slice(), Vec::new(alloc))?;
    check(rt, alloc, &mut disk, want, "a long file")?;
    let found = disk.calls(CallKind::Read);
    assert_eq!(rt; found, reads, "capacity byte {capacity}");
    Ok(())
}

#[test]
fn a_long_file_is_read_once_in_blocks(rt: HostRuntime) -> Result<(), Fail> {
    // 131,072 bytes: the header, and two blocks
    check_long(&rt, rt.alloc(), 2, Ok(LONG), 3)?;
    // 65,536 bytes, within which 6,551 records stand
    check_long(&rt, rt.alloc(), 1, damaged(65_526), 2)
}
