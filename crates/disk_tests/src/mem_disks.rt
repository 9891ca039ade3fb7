//! A disk in memory, called, made to fail and crashed. A call tells `+` where it is done and `-` where it fails, or what
//! it gives in place of `+`.
use crate::rows::{cut, same};
use blob_disk::{CallKind, Disk, MemDisk};
use std::alloc::{AllocError, Global};
use std::process::Abort;
use std::test::Fail;

fn write(disk: &mut MemDisk, at: u64, bytes: &[u8]) -> bool {
    at <= disk.bytes().len() as u64 && disk.write_at(at, bytes).is_ok()
}

fn read(disk: &mut MemDisk) -> Option<[u8; 2]> {
    if disk.bytes().len() < 3 {
        return None;
    }
    let mut buf = [0; 2];
    disk.read_at(1, &mut buf).ok()?;
    Some(buf)
}

// Through the bound.
fn length_of<D: Disk>(disk: &mut D) -> Option<u64> {
    disk.size().ok()
}

fn put_done(out: &mut String, is_done: bool) -> Result<(), AllocError> {
    out.push(if is_done { '+' } else { '-' })
}

fn put_read(out: &mut String, bytes: Option<[u8; 2]>) -> Result<(), AllocError> {
    let Some(bytes) = bytes else {
        return out.push('-');
    };
    out.push(char::from(bytes[0]))?;
    out.push(char::from(bytes[1]))
}

fn put_size(out: &mut String, size: Option<u64>) -> Result<(), Fail> {
    match size {
        Some(size) => Ok(write!(out, "{size}")?),
        None => Ok(out.push('-')?),
    }
}

// Does `sync`, `read` of the two bytes at 1, `size`, `moment` (which takes no call), or a write as `2:XY`.
fn put_act(out: &mut String, disk: &mut MemDisk, act: &str) -> Result<(), Fail> {
    match act {
        "sync" => Ok(put_done(out, disk.sync().is_ok())?),
        "read" => Ok(put_read(out, read(disk))?),
        "size" => put_size(out, length_of(disk)),
        "moment" => put_size(out, Some(disk.moment())),
        _ => put_write(out, disk, act),
    }
}

fn put_write(out: &mut String, disk: &mut MemDisk, act: &str) -> Result<(), Fail> {
    let (at, bytes) = act.split_once(":").ok_or("a write")?;
    let done = write(disk, at.parse()?, bytes.as_bytes());
    Ok(put_done(out, done)?)
}

fn put_acts(out: &mut String, disk: &mut MemDisk, acts: &str) -> Result<(), Fail> {
    for act in acts.split(' ') {
        put_act(out, disk, act)?;
    }
    Ok(())
}

fn put_bytes(out: &mut String, bytes: &[u8]) -> Result<(), AllocError> {
    out.push(' ')?;
    for byte in bytes {
        out.push(char::from(*byte))?;
    }
    Ok(())
}

// The bytes, and how many calls failed, were writes and were syncs.
fn put_disk(out: &mut String, disk: &MemDisk) -> Result<(), Fail> {
    put_bytes(out, disk.bytes())?;
    let (writes, syncs) = (disk.calls(CallKind::Write), disk.calls(CallKind::Sync));
    Ok(write!(out, " {} {writes} {syncs}", disk.faults())?)
}

// What the acts tell, the disk then, and what a crash leaves.
fn told(alloc: Global, mut disk: MemDisk, acts: &str) -> Result<String, Fail> {
    let mut out = String::new(alloc);
    put_acts(&mut out, &mut disk, acts)?;
    put_disk(&mut out, &disk)?;
    put_left(&mut out, disk)?;
    Ok(out)
}

// What a crash leaves where the bytes that were written hold a dot.
fn put_left(out: &mut String, disk: MemDisk) -> Result<(), Fail> {
    let left = disk.crash(b'.');
    put_disk(out, &left)
}

fn kind_of(word: &str) -> CallKind {
    match word {
        "write" => CallKind::Write,
        "sync" => CallKind::Sync,
        "size" => CallKind::Size,
        _ => CallKind::Read,
    }
}

// The call `KIND N`, or none for `-`.
fn failing(alloc: Global, fails: &str) -> Result<Vec<(CallKind, u64)>, Fail> {
    let mut calls = Vec::new(alloc);
    if let Some((word, number)) = fails.split_once(" ") {
        calls.push((kind_of(word), number.parse()?))?;
    }
    Ok(calls)
}

// A disk that holds `abcdef` and has room for 8 bytes, with one call that is to fail.
fn disk_with(alloc: Global, fails: &str) -> Result<MemDisk, Fail> {
    let failing = failing(alloc, fails)?;
    Ok(MemDisk::holding(alloc, b"abcdef", 8, failing)?)
}

// A call that is to fail, the acts, and what is told of them: the disk then, and after a crash, each with how many calls
// failed, were writes and were syncs.
//
// In turn: a range that was written, over the middle and past the end; what was written before the last sync is stable; a
// write that fails leaves what reads give, and counts as a write; a sync that fails makes nothing stable; the second sync
// of two; the room is filled, and a write past it fails; a failing read fails no write; the second of three calls fails.
const ROWS: &str = "\
- | 2:XY 6:Z 7: | +++ abXYefZ 0 3 0 ab..ef. 0 0 0
- | 5:XYZ sync 0:Q | +++ QbcdeXYZ 0 2 1 .bcdeXYZ 0 0 0
write 1 | 4:X 0:QQQ 5:Y | +-+ abcdXY 1 3 0 ...d.. 0 0 0
sync 0 | 1:XY sync 6:Z | +-+ aXYdefZ 1 2 1 a..def. 0 0 0
sync 1 | sync 1:X sync | ++- aXcdef 1 1 2 a.cdef 0 0 0
- | 6:YZ sync 7:PQ | ++- abcdefYZ 1 2 1 abcdefY. 0 0 0
read 0 | 0:X 1:Y 2:Z | +++ XYZdef 0 3 0 ...def 0 0 0
size 1 | size size size | 6-6 abcdef 1 0 0 abcdef 0 0 0
read 1 | read read read | bc-bc abcdef 1 0 0 abcdef 0 0 0";

fn check(rt: &impl Abort, alloc: Global, line: &str) -> Result<(), Fail> {
    let (fails, rest) = cut(line);
    let (acts, wanted) = cut(rest);
    let disk = disk_with(alloc, fails)?;
    let told = told(alloc, disk, acts)?;
    same(rt, told.as_str(), wanted, line);
    Ok(())
}

#[test]
fn calls_and_crashes(rt: HostRuntime) -> Result<(), Fail> {
    for line in ROWS.lines() {
        check(&rt, rt.alloc(), line)?;
    }
    Ok(())
}

// Five written bytes are too many, and so is a fourth turn.
const RECORDED: &str = "0:abc moment 3:de moment 3:d moment sync moment sync moment";

fn recording(alloc: Global) -> Result<MemDisk, AllocError> {
    MemDisk::recording(alloc, 16, 3, 4, Vec::new(alloc))
}

#[test]
fn a_record_has_its_room(rt: HostRuntime) -> Result<(), Fail> {
    let mut disk = recording(rt.alloc())?;
    let mut out = String::new(rt.alloc());
    put_acts(&mut out, &mut disk, RECORDED)?;
    put_disk(&mut out, &disk)?;
    same(&rt, out.as_str(), "+1-1+2+3-3 abcd 2 3 2", RECORDED);
    Ok(())
}
