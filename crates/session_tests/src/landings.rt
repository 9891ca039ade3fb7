//! Sessions that land a stack, on a disk that fails: whole or not at all.
use crate::program::{Failing, INIT, made, number};
use crate::session::cut;
use crate::stops::{
    calls_of_opening, check_counted, check_opening, crashed, ended, failing_of, file_after,
    fill_of, kind_of, left,
};
use blob_disk::{CallKind, MemDisk};
use command_line::Status;
use std::alloc::{AllocError, Global};
use std::process::Abort;
use std::sync::Wait;
use std::test::Fail;
use std::thread::Threads;

/// Two contents, a changeset that `main` is made at, one on it that `main` moves to, and a draft beside that one. Each
/// line makes an entry. The ids are SHA-256 (FIPS 180-4) of the bytes that docs/FORMATS.md spells.
const BEFORE: &str =
    r#"PUT /content | abc | 200 OK | {"code":"content","id":"ba7816bf8f01cfea414140de5dae2223b00361a396177a9cb410ff61f20015ad","size":3}
PUT /content |  | 200 OK | {"code":"content","id":"e3b0c44298fc1c149afbf4c8996fb92427ae41e4649b934ca495991b7852b855","size":0}
PUT /changeset | 0x4301000001610000000000000000000000000000000000000000 | 200 OK | {"code":"changeset","id":"ffb74880ae0d3038b6e6e402ea0840634c79efb3c927e280d44f36567ece7169"}
PUT /changeset | 0x430101ffb74880ae0d3038b6e6e402ea0840634c79efb3c927e280d44f36567ece7169000161000000000000000000000000000000000000000100017801000000000000000003ba7816bf8f01cfea414140de5dae2223b00361a396177a9cb410ff61f20015ad | 200 OK | {"code":"changeset","id":"6f0fd4791e9901030b778dc51bebc28effb042f328726c7f1689026f5b9c68c8"}
PUT /bookmark/main/none/ffb74880ae0d3038b6e6e402ea0840634c79efb3c927e280d44f36567ece7169 |  | 200 OK | {"code":"bookmark","head":"ffb74880ae0d3038b6e6e402ea0840634c79efb3c927e280d44f36567ece7169","name":"main"}
PUT /bookmark/main/ffb74880ae0d3038b6e6e402ea0840634c79efb3c927e280d44f36567ece7169/6f0fd4791e9901030b778dc51bebc28effb042f328726c7f1689026f5b9c68c8 |  | 200 OK | {"code":"bookmark","head":"6f0fd4791e9901030b778dc51bebc28effb042f328726c7f1689026f5b9c68c8","name":"main"}
PUT /changeset | 0x430101ffb74880ae0d3038b6e6e402ea0840634c79efb3c927e280d44f36567ece7169000161000000000000000000000000000000000000000100017901000000000000000000e3b0c44298fc1c149afbf4c8996fb92427ae41e4649b934ca495991b7852b855 | 200 OK | {"code":"changeset","id":"640d00803ffd078abe99687f11f76e3949495f55dd88e999e6458f7adfdf79ac"}"#;

/// The draft is put onto `main`, as a changeset with another parent.
const LAND: &str =
    r#"POST /land/main/640d00803ffd078abe99687f11f76e3949495f55dd88e999e6458f7adfdf79ac |  | 200 OK | {"code":"landed","head":"66018dae6dcd26aa7f15f755f702edd69b683e14a7531d0ba9293f9127fda14f","ids":["66018dae6dcd26aa7f15f755f702edd69b683e14a7531d0ba9293f9127fda14f"],"old":"6f0fd4791e9901030b778dc51bebc28effb042f328726c7f1689026f5b9c68c8"}"#;

/// What is read where the landing isn't in the file, and where it is.
const OUT: &str =
    r#"GET /log/6 |  | 200 OK | {"code":"log","entries":[{"id":"640d00803ffd078abe99687f11f76e3949495f55dd88e999e6458f7adfdf79ac","kind":"changeset","number":6}],"total":7}
GET /changeset/66018dae6dcd26aa7f15f755f702edd69b683e14a7531d0ba9293f9127fda14f |  | 404 Not Found | {"code":"no-changeset","id":"66018dae6dcd26aa7f15f755f702edd69b683e14a7531d0ba9293f9127fda14f"}"#;

const IN: &str =
    r#"GET /log/6 |  | 200 OK | {"code":"log","entries":[{"id":"640d00803ffd078abe99687f11f76e3949495f55dd88e999e6458f7adfdf79ac","kind":"changeset","number":6},{"draft":"640d00803ffd078abe99687f11f76e3949495f55dd88e999e6458f7adfdf79ac","ids":["66018dae6dcd26aa7f15f755f702edd69b683e14a7531d0ba9293f9127fda14f"],"kind":"landing","name":"main","number":7,"old":"6f0fd4791e9901030b778dc51bebc28effb042f328726c7f1689026f5b9c68c8"}],"total":8}
GET /changeset/66018dae6dcd26aa7f15f755f702edd69b683e14a7531d0ba9293f9127fda14f |  | 200 OK | 0x4301016f0fd4791e9901030b778dc51bebc28effb042f328726c7f1689026f5b9c68c8000161000000000000000000000000000000000000000100017901000000000000000000e3b0c44298fc1c149afbf4c8996fb92427ae41e4649b934ca495991b7852b855"#;

/// The draft once it is landed.
const AGAIN: &str =
    r#"POST /land/main/640d00803ffd078abe99687f11f76e3949495f55dd88e999e6458f7adfdf79ac |  | 409 Conflict | {"code":"clash","left":"y","right":"y"}"#;

const DISK_FAULT: &str = r#"500 Internal Server Error | {"code":"disk-fault"}"#;

const DOWN: &str = r#"500 Internal Server Error | {"code":"down"}"#;

/// The line of `fsck` on a file that has none, one, .. of the entries, the answer to a read of the first content, and that
/// to one of `main`.
const AFTER: &str =
    r#"entries 0 contents 0 changesets 0 bookmarks 0 size 17 | 404 Not Found | {"code":"no-content","id":"ba7816bf8f01cfea414140de5dae2223b00361a396177a9cb410ff61f20015ad"} | 404 Not Found | {"code":"no-bookmark"}
entries 1 contents 1 changesets 0 bookmarks 0 size 26 | 200 OK | 0x616263 | 404 Not Found | {"code":"no-bookmark"}
entries 2 contents 2 changesets 0 bookmarks 0 size 32 | 200 OK | 0x616263 | 404 Not Found | {"code":"no-bookmark"}
entries 3 contents 2 changesets 1 bookmarks 0 size 63 | 200 OK | 0x616263 | 404 Not Found | {"code":"no-bookmark"}
entries 4 contents 2 changesets 2 bookmarks 0 size 171 | 200 OK | 0x616263 | 404 Not Found | {"code":"no-bookmark"}
entries 5 contents 2 changesets 2 bookmarks 1 size 216 | 200 OK | 0x616263 | 200 OK | {"code":"bookmark","head":"ffb74880ae0d3038b6e6e402ea0840634c79efb3c927e280d44f36567ece7169","name":"main"}
entries 6 contents 2 changesets 2 bookmarks 1 size 293 | 200 OK | 0x616263 | 200 OK | {"code":"bookmark","head":"6f0fd4791e9901030b778dc51bebc28effb042f328726c7f1689026f5b9c68c8","name":"main"}
entries 7 contents 2 changesets 3 bookmarks 1 size 401 | 200 OK | 0x616263 | 200 OK | {"code":"bookmark","head":"6f0fd4791e9901030b778dc51bebc28effb042f328726c7f1689026f5b9c68c8","name":"main"}
entries 8 contents 2 changesets 4 bookmarks 1 size 585 | 200 OK | 0x616263 | 200 OK | {"code":"bookmark","head":"66018dae6dcd26aa7f15f755f702edd69b683e14a7531d0ba9293f9127fda14f","name":"main"}"#;

// A call that fails in the landing, or none; the file as it reads, or as a crash leaves it that writes this byte where
// nothing is sure; and whether the landing is in it when it is opened again. Opening syncs once, and the landing writes its
// record, syncs, writes the gate and syncs: it is in the file where the gate reads 1.
const STOPS: &str = "\
write 0 | read | out
write 0 | 0 | out
write 0 | 1 | out
write 0 | 88 | out
sync 1 | read | out
sync 1 | 0 | out
sync 1 | 1 | out
sync 1 | 88 | out
write 1 | read | out
write 1 | 0 | out
write 1 | 1 | in
write 1 | 88 | out
sync 2 | read | in
sync 2 | 0 | out
sync 2 | 1 | in
sync 2 | 88 | out
- | read | in
- | 0 | in
- | 1 | in
- | 88 | in";

// A kind of call, how many of it opening a new repository makes, and how many the story makes after that: each of its eight
// changes writes twice and syncs twice.
const CALLS: &str = "\
size | 1 | 0
read | 2 | 0
write | 0 | 16
sync | 1 | 16";

// The row with this number, counted from 0.
fn row_at(rows: &'static str, number: u64) -> &'static str {
    let mut before = number;
    for row in rows.lines() {
        if before == 0 {
            return row;
        }
        before = before.saturating_sub(1);
    }
    ""
}

// Reads of the first content and of `main` in a file that has so many entries.
fn reads_of(alloc: Global, entries: u64) -> Result<String, AllocError> {
    let (_counted, rest) = cut(row_at(AFTER, entries));
    let (status, rest) = cut(rest);
    let (content, main) = cut(rest);
    format!(in alloc;
        "GET /content/ba7816bf8f01cfea414140de5dae2223b00361a396177a9cb410ff61f20015ad |  | {status} | {content}\nGET /bookmark/main |  | {main}\n"
    )
}

// Opened again, the file has so many entries.
fn check_entries<R: Abort + Threads + Wait + Sync>(
    rt: &R,
    alloc: Global,
    file: &[u8],
    entries: u64,
) -> Result<(), Fail> {
    let (counted, _reads) = cut(row_at(AFTER, entries));
    let line = format!(in alloc; "{counted}\n")?;
    check_counted(rt, alloc, file, line.as_str())?;
    let reads = reads_of(alloc, entries)?;
    let _read = left(rt, alloc, file, reads.as_str())?;
    Ok(())
}

// Opened again, the file has the landing or lacks it.
fn check_landed<R: Abort + Threads + Wait + Sync>(
    rt: &R,
    alloc: Global,
    file: &[u8],
    landed: bool,
) -> Result<(), Fail> {
    let (entries, reads, again) = if landed {
        (8, IN, AGAIN)
    } else {
        (7, OUT, LAND)
    };
    check_entries(rt, alloc, file, entries)?;
    let read = left(rt, alloc, file, reads)?;
    let _again = left(rt, alloc, read.bytes(), again)?;
    Ok(())
}

// Lands the draft on a file of these bytes, where this call fails.
fn land<R: Abort + Threads + Wait + Sync>(
    rt: &R,
    alloc: Global,
    file: &[u8],
    failing: Failing,
) -> Result<MemDisk, Fail> {
    if failing.is_none() {
        return ended(rt, alloc, file, failing, LAND, Status::Done);
    }
    let (request, _rest) = cut(LAND);
    let line = format!(in alloc; "{request} |  | {DISK_FAULT}")?;
    ended(rt, alloc, file, failing, line.as_str(), Status::DiskFault)
}

// The file as it reads, or as a crash leaves it that writes this byte.
fn left_by(disk: MemDisk, way: &str) -> Result<MemDisk, Fail> {
    match way {
        "read" => Ok(disk),
        fill => Ok(disk.crash(fill_of(fill)?)),
    }
}

fn check_stop<R: Abort + Threads + Wait + Sync>(
    rt: &R,
    alloc: Global,
    file: &[u8],
    row: &str,
) -> Result<(), Fail> {
    let (failing, rest) = cut(row);
    let (way, landed) = cut(rest);
    let disk = land(rt, alloc, file, failing_of(failing)?)?;
    let disk = left_by(disk, way)?;
    check_landed(rt, alloc, disk.bytes(), landed == "in")
}

#[test]
fn a_landing_that_is_stopped_is_whole_or_not_there(rt: HostRuntime) -> Result<(), Fail> {
    let file = file_after(&rt, rt.alloc(), BEFORE)?;
    for row in STOPS.lines() {
        check_stop(&rt, rt.alloc(), file.bytes(), row)?;
    }
    Ok(())
}

// All changes, each with its answer.
fn story(alloc: Global) -> Result<String, AllocError> {
    format!(in alloc; "{BEFORE}\n{LAND}")
}

// The answer to a change where the change with the number `failing` meets the fault.
fn answer_of(answer: &str, number: u64, failing: u64) -> &str {
    if number < failing {
        answer
    } else if number == failing {
        DISK_FAULT
    } else {
        DOWN
    }
}

// The line of a change where the one with the number `failing` meets the fault.
fn change(alloc: Global, row: &str, number: u64, failing: u64) -> Result<String, AllocError> {
    let (request, rest) = cut(row);
    let (body, answer) = cut(rest);
    let answer = answer_of(answer, number, failing);
    format!(in alloc; "{request} | {body} | {answer}\n")
}

fn put_story(alloc: Global, out: &mut String, rows: &str, failing: u64) -> Result<(), AllocError> {
    let mut number = 0_u64;
    for row in rows.lines() {
        out.push_str(change(alloc, row, number, failing)?.as_str())?;
        number = number.saturating_add(1);
    }
    Ok(())
}

// All changes where the one with this number meets the fault. Then reads, which still see its entry.
fn stopped_story(alloc: Global, failing: u64) -> Result<String, AllocError> {
    let mut lines = String::new(alloc);
    put_story(alloc, &mut lines, story(alloc)?.as_str(), failing)?;
    lines.push_str(reads_of(alloc, failing.saturating_add(1))?.as_str())?;
    Ok(lines)
}

// How many entries a crash leaves that writes `fill`, where the nth call of a kind after opening failed. Two calls of a kind
// are of one change, and the second is of its gate: the change is in the file where the crash writes 1 over that.
fn entries_of(nth: u64, fill: u8) -> u64 {
    let opened = fill == 1 && nth % 2 == 1;
    (nth / 2).saturating_add(u64::from(opened))
}

// Runs the story on a new file where this call fails, the nth of its kind after opening, and crashes.
fn check_change<R: Abort + Threads + Wait + Sync>(
    rt: &R,
    alloc: Global,
    file: &[u8],
    call: (CallKind, u64),
    nth: u64,
    fill: u8,
) -> Result<(), Fail> {
    let lines = stopped_story(alloc, nth / 2)?;
    let lines = lines.as_str();
    let disk = crashed(rt, alloc, file, Some(call), lines, Status::DiskFault, fill)?;
    check_entries(rt, alloc, disk.bytes(), entries_of(nth, fill))
}

fn check_changes<R: Abort + Threads + Wait + Sync>(
    rt: &R,
    alloc: Global,
    file: &[u8],
    kind: CallKind,
    opening: u64,
    later: u64,
) -> Result<(), Fail> {
    for nth in 0..later {
        let call = (kind, opening.saturating_add(nth));
        check_change(rt, alloc, file, call, nth, 0)?;
        check_change(rt, alloc, file, call, nth, 1)?;
        check_change(rt, alloc, file, call, nth, 88)?;
    }
    Ok(())
}

// How many calls of a kind the whole story makes on a new file, with those of opening. All changes are in it then.
fn calls_of_story<R: Abort + Threads + Wait + Sync>(
    rt: &R,
    alloc: Global,
    file: &[u8],
    kind: CallKind,
) -> Result<u64, Fail> {
    let lines = story(alloc)?;
    let disk = ended(rt, alloc, file, None, lines.as_str(), Status::Done)?;
    check_entries(rt, alloc, disk.bytes(), 8)?;
    Ok(disk.calls(kind))
}

// The calls of a kind in the whole story, on a new file, are so many of opening and so many of changes.
fn check_calls<R: Abort + Threads + Wait + Sync>(
    rt: &R,
    alloc: Global,
    file: &[u8],
    kind: CallKind,
    opening: u64,
    later: u64,
) -> Result<(), Fail> {
    let found = calls_of_opening(rt, alloc, file, kind)?;
    assert_eq!(rt; found, opening);
    let found = calls_of_story(rt, alloc, file, kind)?;
    assert_eq!(rt; found, opening.saturating_add(later));
    Ok(())
}

fn check_kind<R: Abort + Threads + Wait + Sync>(
    rt: &R,
    alloc: Global,
    file: &[u8],
    row: &str,
) -> Result<(), Fail> {
    let (word, rest) = cut(row);
    let (opening, later) = cut(rest);
    let (kind, opening, later) = (kind_of(word)?, number(opening)?, number(later)?);
    check_calls(rt, alloc, file, kind, opening, later)?;
    for number in 0..opening {
        check_opening(rt, alloc, (kind, number))?;
    }
    check_changes(rt, alloc, file, kind, opening, later)
}

#[test]
fn a_call_that_fails_ends_the_changes_and_keeps_those_before(rt: HostRuntime) -> Result<(), Fail> {
    let file = made(&rt, rt.alloc(), INIT)?;
    for row in CALLS.lines() {
        check_kind(&rt, rt.alloc(), file.bytes(), row)?;
    }
    Ok(())
}
