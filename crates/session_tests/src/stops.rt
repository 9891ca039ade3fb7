//! Disks that fail, and crashes.
use crate::program::{Failing, INIT, disk_of, link_of, made, number, run_line, run_on, same_bytes};
use crate::session::{cut, played};
use blob_disk::{CallKind, MemDisk};
use command_line::Status;
use std::alloc::Global;
use std::process::Abort;
use std::sync::Wait;
use std::test::Fail;
use std::thread::Threads;

const PUT: &str =
    r#"PUT /content | abc | 200 OK | {"code":"content","id":"ba7816bf8f01cfea414140de5dae2223b00361a396177a9cb410ff61f20015ad","size":3}"#;

/// A changeset and a bookmark at it.
const MAIN: &str =
    r#"PUT /changeset | 0x4301000001610000000000000000000000000000000000000000 | 200 OK | {"code":"changeset","id":"ffb74880ae0d3038b6e6e402ea0840634c79efb3c927e280d44f36567ece7169"}
PUT /bookmark/main/none/ffb74880ae0d3038b6e6e402ea0840634c79efb3c927e280d44f36567ece7169 |  | 200 OK | {"code":"bookmark","head":"ffb74880ae0d3038b6e6e402ea0840634c79efb3c927e280d44f36567ece7169","name":"main"}"#;

/// The first sync of the upload fails; then no change is made, and reads go on.
const DOWN: &str = r#"PUT /content | abc | 500 Internal Server Error | {"code":"disk-fault"}
PUT /content | abc | 500 Internal Server Error | {"code":"down"}
GET /bookmark/main |  | 200 OK | {"code":"bookmark","head":"ffb74880ae0d3038b6e6e402ea0840634c79efb3c927e280d44f36567ece7169","name":"main"}"#;

/// A content that the disk doesn't read, once; its other calls are done.
const UNREAD: &str =
    r#"GET /content/ba7816bf8f01cfea414140de5dae2223b00361a396177a9cb410ff61f20015ad |  | 500 Internal Server Error | {"code":"read-fault"}
GET /content/ba7816bf8f01cfea414140de5dae2223b00361a396177a9cb410ff61f20015ad |  | 200 OK | 0x616263"#;

/// Runs a session of this script on a file of these bytes, and gives the disk as the session leaves it.
pub(crate) fn ended<R: Abort + Threads + Wait + Sync>(
    rt: &R,
    alloc: Global,
    file: &[u8],
    failing: Failing,
    lines: &str,
    status: Status,
) -> Result<MemDisk, Fail> {
    let disk = disk_of(alloc, file, failing)?;
    played(rt, alloc, disk, lines, status)?.left()
}

/// The same, as a crash leaves the file that writes `fill` where nothing is sure.
pub(crate) fn crashed<R: Abort + Threads + Wait + Sync>(
    rt: &R,
    alloc: Global,
    file: &[u8],
    failing: Failing,
    lines: &str,
    status: Status,
    fill: u8,
) -> Result<MemDisk, Fail> {
    Ok(ended(rt, alloc, file, failing, lines, status)?.crash(fill))
}

/// What a session of this script, whose calls are done, leaves of the file.
pub(crate) fn left<R: Abort + Threads + Wait + Sync>(
    rt: &R,
    alloc: Global,
    file: &[u8],
    lines: &str,
) -> Result<MemDisk, Fail> {
    crashed(rt, alloc, file, None, lines, Status::Done, 0)
}

/// What a session of this script leaves of the file of a new repository.
pub(crate) fn file_after<R: Abort + Threads + Wait + Sync>(
    rt: &R,
    alloc: Global,
    lines: &str,
) -> Result<MemDisk, Fail> {
    let file = made(rt, alloc, INIT)?;
    left(rt, alloc, file.bytes(), lines)
}

/// The file is counted, and this line is written of it.
pub(crate) fn check_counted<R: Abort + Threads + Wait + Sync>(
    rt: &R,
    alloc: Global,
    file: &[u8],
    line: &str,
) -> Result<(), Fail> {
    let came = run_on(rt, alloc, "hg_cli fsck repository", file)?;
    came.check(rt, Status::Done, line.as_bytes(), line);
    Ok(())
}

/// The kind of call that a row's word stands for.
pub(crate) fn kind_of(word: &str) -> Result<CallKind, Fail> {
    match word {
        "size" => Ok(CallKind::Size),
        "read" => Ok(CallKind::Read),
        "write" => Ok(CallKind::Write),
        "sync" => Ok(CallKind::Sync),
        _ => Err(Fail::from("a call")),
    }
}

/// The byte that a crash writes where nothing is sure.
pub(crate) fn fill_of(text: &str) -> Result<u8, Fail> {
    Ok(text.parse()?)
}

/// The call `KIND N`, or none for `-`.
pub(crate) fn failing_of(text: &str) -> Result<Failing, Fail> {
    match text.split_once(" ") {
        Some((word, text)) => Ok(Some((kind_of(word)?, number(text)?))),
        None => Ok(None),
    }
}

// A call that fails in an upload, what a crash writes then where nothing is sure, and how many contents the file has when
// it is opened again. Opening syncs once, and an upload writes, syncs, writes the gate and syncs. What stopped it is that
// the call after failed.
const STOPS: &str = "\
write 0 | 1 | 0
sync 1 | 0 | 0
sync 1 | 1 | 0
write 1 | 0 | 0
write 1 | 1 | 1
sync 2 | 0 | 0
sync 2 | 1 | 1
- | 0 | 1";

const OLD: &str = "entries 0 contents 0 changesets 0 bookmarks 0 size 17\n";

const NEW: &str = "entries 1 contents 1 changesets 0 bookmarks 0 size 26\n";

const FAILED: &str = r#"PUT /content | abc | 500 Internal Server Error | {"code":"disk-fault"}"#;

// What an upload leaves of a new repository where this call fails.
fn stopped<R: Abort + Threads + Wait + Sync>(
    rt: &R,
    alloc: Global,
    failing: &str,
    fill: u8,
) -> Result<MemDisk, Fail> {
    let file = made(rt, alloc, INIT)?;
    let (lines, status) = match failing {
        "-" => (PUT, Status::Done),
        _ => (FAILED, Status::DiskFault),
    };
    crashed(
        rt,
        alloc,
        file.bytes(),
        failing_of(failing)?,
        lines,
        status,
        fill,
    )
}

fn check_stop<R: Abort + Threads + Wait + Sync>(
    rt: &R,
    alloc: Global,
    row: &str,
) -> Result<(), Fail> {
    let (failing, rest) = cut(row);
    let (fill, contents) = cut(rest);
    let left = stopped(rt, alloc, failing, fill_of(fill)?)?;
    let counted = if contents == "0" { OLD } else { NEW };
    check_counted(rt, alloc, left.bytes(), counted)
}

#[test]
fn a_crash_leaves_the_old_file_or_the_new(rt: HostRuntime) -> Result<(), Fail> {
    for row in STOPS.lines() {
        check_stop(&rt, rt.alloc(), row)?;
    }
    Ok(())
}

/// How many calls of the kind opening the file makes.
pub(crate) fn calls_of_opening<R: Threads + Wait + Sync>(
    rt: &R,
    alloc: Global,
    file: &[u8],
    kind: CallKind,
) -> Result<u64, Fail> {
    let came = run_on(rt, alloc, "hg_cli fsck repository", file)?;
    Ok(came.left()?.calls(kind))
}

// Runs the script on a file where the first call of this kind after opening fails.
fn faulted<R: Abort + Threads + Wait + Sync>(
    rt: &R,
    alloc: Global,
    file: &[u8],
    kind: CallKind,
    lines: &str,
    status: Status,
) -> Result<MemDisk, Fail> {
    let call = (kind, calls_of_opening(rt, alloc, file, kind)?);
    crashed(rt, alloc, file, Some(call), lines, status, 0)
}

// The same on a file that a session of another script left. Once the file is opened again, it takes changes.
fn check_fault<R: Abort + Threads + Wait + Sync>(
    rt: &R,
    alloc: Global,
    before: &str,
    kind: CallKind,
    lines: &str,
    status: Status,
) -> Result<(), Fail> {
    let file = file_after(rt, alloc, before)?;
    let file = faulted(rt, alloc, file.bytes(), kind, lines, status)?;
    let _again = left(rt, alloc, file.bytes(), PUT)?;
    Ok(())
}

#[test]
fn a_disk_fault_ends_changes_and_no_reads(rt: HostRuntime) -> Result<(), Fail> {
    let (alloc, down) = (rt.alloc(), Status::DiskFault);
    check_fault(&rt, alloc, MAIN, CallKind::Sync, DOWN, down)?;
    check_fault(&rt, alloc, PUT, CallKind::Read, UNREAD, Status::Done)
}

// A file of which this call fails isn't opened by the command, which writes so, and stays as it was.
fn check_opened<R: Abort + Threads + Wait + Sync>(
    rt: &R,
    alloc: Global,
    file: &[u8],
    call: (CallKind, u64),
    line: &str,
    written: &[u8],
) -> Result<(), Fail> {
    let link = link_of(alloc, b"GET")?;
    let disk = disk_of(alloc, file, Some(call))?;
    let came = run_line(rt, alloc, line, link, Some(disk))?;
    came.check(rt, Status::DiskFault, written, line);
    same_bytes(rt, came.file(), file, line);
    Ok(())
}

/// Neither command opens a new repository of which this call fails.
pub(crate) fn check_opening<R: Abort + Threads + Wait + Sync>(
    rt: &R,
    alloc: Global,
    call: (CallKind, u64),
) -> Result<(), Fail> {
    let file = made(rt, alloc, INIT)?;
    let (count, session) = ("hg_cli fsck repository", "hg_cli session repository");
    check_opened(rt, alloc, file.bytes(), call, count, b"disk fault\n")?;
    check_opened(rt, alloc, file.bytes(), call, session, b"")
}
