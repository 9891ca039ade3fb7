//! Repositories that are copied to files of the second version.
use crate::program::{
    Files, disk_of, keys, link_with_room, no_links, number, same_bytes, size, status_of, words,
};
use crate::session::cut;
use blob_disk::MemDisk;
use command_line::{Ran, run};
use ports::{FixedClock, MemAccept, MemLink, MemOpener, NoGate, Slot};
use std::alloc::Global;
use std::process::Abort;
use std::sync::Wait;
use std::test::Fail;
use std::thread::Threads;

// A file of the first version with the content `abc`.
const FIRST: &[u8] = b"BONSAI\x00\x01\x00\x00\x00\x00\x00\x01\x00\x00\x01\x00\x00\x00\x04Babc\x00";

// The same in the second version.
const SECOND: &[u8] = b"BONSAI\x00\x02\x00\x00\x00\x00\x00\x01\x00\x00\x01\x00\x00\x00\x04Babc\x00";

// The first with a payload that no record has.
const DAMAGED: &[u8] =
    b"BONSAI\x00\x01\x00\x00\x00\x00\x00\x01\x00\x00\x01\x00\x00\x00\x04Xabc\x00";

// The old file and the new one, the call of the opener that fails, how many bytes can be written, the status, the line, and
// what is left of the new file and of the old one, where the run gives them.
const ENDS: &str = "\
first | empty | - | 99 | done | migrated 1 size 26 | second | first
second | empty | - | 99 | done | migrated 1 size 26 | second | second
first | empty | - | 12 | stream fault | migrated 1 | second | first
first | used | - | 99 | not empty | file is not empty | used | first
first | used | - | 0 | not empty |  | used | first
first | used | 1 | 99 | disk fault | disk fault | none | first
first | used | 0 | 99 | disk fault | disk fault | none | none
damaged | used | - | 99 | bad file | damaged at 16 | none | damaged
empty | used | - | 99 | bad file | not a repository | none | empty
none | used | - | 99 | disk fault | disk fault | none | none";

fn file_of(word: &str) -> Option<&'static [u8]> {
    match word {
        "first" => Some(FIRST),
        "second" => Some(SECOND),
        "damaged" => Some(DAMAGED),
        "used" => Some(b"\x00"),
        "empty" => Some(b""),
        _ => None,
    }
}

// An opener that has the old file, if there is one, and the new one for another name.
fn opener_of(alloc: Global, old: &str, new: &str, failing: &str) -> Result<Files, Fail> {
    let mut named = Vec::new(alloc);
    if let Some(file) = file_of(old) {
        named.push(Slot {
            name: String::from_str(alloc, "repository")?,
            held: Some(disk_of(alloc, file, None)?),
        })?;
    }
    let mut empty = Vec::new(alloc);
    empty.push(disk_of(alloc, file_of(new).unwrap_or(b""), None)?)?;
    let mut calls = Vec::new(alloc);
    if failing != "-" {
        calls.push(number(failing)?)?;
    }
    Ok(MemOpener::new(named, empty, calls))
}

// Copies the file `repository` to the file `copy`.
fn migrated<R: Threads + Wait + Sync>(
    rt: &R,
    alloc: Global,
    link: &mut MemLink,
    opener: &mut Files,
) -> Result<Ran<MemDisk, MemAccept<MemLink>, MemLink>, Fail> {
    let words = words(alloc, "hg_cli migrate repository copy")?;
    let (none, clock) = (no_links(alloc), FixedClock { moment: 0 });
    Ok(run(
        rt,
        alloc,
        keys()?,
        words.as_slice(),
        link,
        opener,
        none,
        &NoGate,
        &clock,
    ))
}

fn check_file(rt: &impl Abort, disk: &Option<MemDisk>, wanted: &str, row: &str) {
    let left = match disk {
        Some(disk) => Some(disk.bytes()),
        None => None,
    };
    assert_eq!(rt; left, file_of(wanted), "{row}");
}

fn check_end<R: Abort + Threads + Wait + Sync>(
    rt: &R,
    alloc: Global,
    row: &str,
) -> Result<(), Fail> {
    let (old, rest) = cut(row);
    let (new, rest) = cut(rest);
    let (failing, rest) = cut(rest);
    let (room, rest) = cut(rest);
    let (status, rest) = cut(rest);
    let (line, rest) = cut(rest);
    let (new_left, old_left) = cut(rest);
    let mut link = link_with_room(alloc, b"", size(room)?)?;
    let mut opener = opener_of(alloc, old, new, failing)?;
    let ran = migrated(rt, alloc, &mut link, &mut opener)?;
    assert_eq!(rt; ran.status, status_of(status), "{row}");
    let written = link.written();
    let written = written.strip_suffix(b"\n").unwrap_or(written);
    same_bytes(rt, written, line.as_bytes(), row);
    check_file(rt, &ran.disk, new_left, row);
    check_file(rt, &ran.other, old_left, row);
    Ok(())
}

#[test]
fn a_migration_ends_by_what_it_found(rt: HostRuntime) -> Result<(), Fail> {
    for row in ENDS.lines() {
        check_end(&rt, rt.alloc(), row)?;
    }
    Ok(())
}
