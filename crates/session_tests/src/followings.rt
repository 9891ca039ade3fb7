//! Servers that are followed: how a run ends, and what it leaves.
use crate::program::{
    Came, Failing, Files, INIT, disk_of, keys, link_of, link_with_room, made, opener_of, run_line,
    same_bytes, size, status_of, words,
};
use crate::session::{cut, put_stream, script_of};
use blob_disk::{CallKind, MemDisk};
use command_line::{Ran, run};
use ports::{FixedClock, MemAccept, MemLink, NoGate};
use std::alloc::Global;
use std::process::Abort;
use std::sync::Wait;
use std::test::Fail;
use std::thread::Threads;

// Two contents, a changeset, and one on it that `main` is made at; a draft beside that one, which lands. Each makes an entry. Ids
// are SHA-256 (FIPS 180-4) of the bytes that docs/FORMATS.md spells.
const CHANGES: &str = "\
PUT /content | abc
PUT /content
PUT /changeset | 0x4301000001610000000000000000000000000000000000000000
PUT /changeset | 0x430101ffb74880ae0d3038b6e6e402ea0840634c79efb3c927e280d44f36567ece7169000161000000000000000000000000000000000000000100017801000000000000000003ba7816bf8f01cfea414140de5dae2223b00361a396177a9cb410ff61f20015ad
PUT /bookmark/main/none/6f0fd4791e9901030b778dc51bebc28effb042f328726c7f1689026f5b9c68c8
PUT /changeset | 0x430101ffb74880ae0d3038b6e6e402ea0840634c79efb3c927e280d44f36567ece7169000161000000000000000000000000000000000000000100017901000000000000000000e3b0c44298fc1c149afbf4c8996fb92427ae41e4649b934ca495991b7852b855
POST /land/main/640d00803ffd078abe99687f11f76e3949495f55dd88e999e6458f7adfdf79ac";

// What is asked to follow that from its start, and behind its end.
const ASKED: &str = "\
GET /log/0
GET /content/ba7816bf8f01cfea414140de5dae2223b00361a396177a9cb410ff61f20015ad
GET /content/e3b0c44298fc1c149afbf4c8996fb92427ae41e4649b934ca495991b7852b855
GET /changeset/ffb74880ae0d3038b6e6e402ea0840634c79efb3c927e280d44f36567ece7169
GET /changeset/6f0fd4791e9901030b778dc51bebc28effb042f328726c7f1689026f5b9c68c8
GET /changeset/640d00803ffd078abe99687f11f76e3949495f55dd88e999e6458f7adfdf79ac
GET /log/7";

const LAST_ASKED: &str = "GET /log/7";

// What is asked behind one entry.
const NEXT_ASKED: &str = "\
GET /log/1
GET /content/e3b0c44298fc1c149afbf4c8996fb92427ae41e4649b934ca495991b7852b855";

// The file `repository`, what comes of the accept, a text of the replies and what stands there instead of it where it first stands
// (behind `cut` nothing follows the text), how many bytes of the line can be written, the line, and the status. A file is opened
// with one sync, and each entry is sealed with two. A full one has one entry.
const ENDS: &str = r#"new | replies | - | - | 99 | followed 7 | done
followed | last | - | - | 99 | followed 7 | done
new | replies | - | - | 4 |  | stream fault
new | replies | ~~ab | cut | 99 | bad reply at 0 | bad reply
new | last | - | - | 99 | bad reply at 0 | bad reply
new | none | - | - | 99 | bad reply at 0 | bad reply
followed | none | - | - | 99 | bad reply at 7 | bad reply
followed | none | - | - | 4 |  | stream fault
new | replies | "ids":["6 | "ids":["7 | 99 | differs at 6 | differs
new | replies | "ids":["6 | "ids":["7 | 4 |  | stream fault
full | next | - | - | 99 | full at 1 | full
full | next | - | - | 4 |  | stream fault
new | failing | - | - | 99 | stream fault | stream fault
new | deaf | - | - | 99 | stream fault | stream fault
unsynced | replies | - | - | 99 | disk fault | disk fault
old | failing | - | - | 99 | old format | bad file
old | replies | - | - | 4 |  | bad file
damaged | replies | - | - | 99 | damaged at 16 | bad file
none | replies | - | - | 99 | disk fault | disk fault"#;

// Of the first version.
const OLD: &[u8] = b"BONSAI\x00\x01\x00\x00\x00\x00\x00\x01\x00\x00\x00";

// With a payload that no record has.
const DAMAGED: &[u8] =
    b"BONSAI\x00\x02\x00\x00\x00\x00\x00\x01\x00\x00\x01\x00\x00\x00\x04Xabc\x00";

// A new one.
const NEW: &[u8] = b"BONSAI\x00\x02\x00\x00\x00\x00\x00\x01\x00\x00\x00";

// The front of one of 4,096 bytes with a content of 4,073.
const FULL: &[u8] = b"BONSAI\x00\x02\x00\x00\x00\x00\x00\x00\x10\x00\x01\x00\x00\x0f\xeaB";

// The file of a server, what it replies from the start, behind the first entry, and behind the last; and a full file.
#[derive(Drop)]
struct Server {
    file: Vec<u8>,
    replies: Vec<u8>,
    next: Vec<u8>,
    last: Vec<u8>,
    full: Vec<u8>,
}

// A session with these requests.
fn asked<R: Threads + Wait + Sync>(
    rt: &R,
    alloc: Global,
    disk: MemDisk,
    lines: &str,
) -> Result<Came, Fail> {
    let script = script_of(alloc, lines)?;
    let link = link_of(alloc, script.input.as_slice())?;
    run_line(rt, alloc, "hg_cli session repository", link, Some(disk))
}

// What a server on this file replies to these requests.
fn replies_of<R: Threads + Wait + Sync>(
    rt: &R,
    alloc: Global,
    file: &[u8],
    lines: &str,
) -> Result<Vec<u8>, Fail> {
    let came = asked(rt, alloc, disk_of(alloc, file, None)?, lines)?;
    Ok(came.written)
}

// The file that a session with these requests leaves.
fn file_after<R: Threads + Wait + Sync>(
    rt: &R,
    alloc: Global,
    lines: &str,
) -> Result<Vec<u8>, Fail> {
    let came = asked(rt, alloc, made(rt, alloc, INIT)?, lines)?;
    Ok(Vec::from_slice(alloc, came.file())?)
}

fn full_file(alloc: Global) -> Result<Vec<u8>, Fail> {
    let mut file = Vec::from_slice(alloc, FULL)?;
    let bytes = vec![in alloc; b'a'; 4_073]?;
    file.extend_from_slice(bytes.as_slice())?;
    file.push(0)?;
    Ok(file)
}

fn server_of<R: Threads + Wait + Sync>(rt: &R, alloc: Global) -> Result<Server, Fail> {
    let file = file_after(rt, alloc, CHANGES)?;
    let replies = replies_of(rt, alloc, file.as_slice(), ASKED)?;
    let next = replies_of(rt, alloc, file.as_slice(), NEXT_ASKED)?;
    let last = replies_of(rt, alloc, file.as_slice(), LAST_ASKED)?;
    Ok(Server {
        file,
        replies,
        next,
        last,
        full: full_file(alloc)?,
    })
}

// The file of a row, and the call of it that fails.
fn file_of<'a>(word: &str, server: &'a Server) -> (&'a [u8], Failing) {
    match word {
        "followed" => (server.file.as_slice(), None),
        "full" => (server.full.as_slice(), None),
        "old" => (OLD, None),
        "damaged" => (DAMAGED, None),
        "unsynced" => (NEW, Some((CallKind::Sync, 3))),
        _ => (NEW, None),
    }
}

// The files of a row.
fn files_of(alloc: Global, word: &str, server: &Server) -> Result<Files, Fail> {
    if word == "none" {
        return Ok(opener_of(alloc, None)?);
    }
    let (file, failing) = file_of(word, server);
    let disk = disk_of(alloc, file, failing)?;
    Ok(opener_of(alloc, Some(disk))?)
}

fn stands_at(bytes: &[u8], at: usize, text: &[u8]) -> bool {
    match bytes.get(at..) {
        Some(rest) => rest.starts_with(text),
        None => false,
    }
}

// The bytes where another text stands for this one, or that end behind it.
fn changed(alloc: Global, bytes: &[u8], text: &str, other: &str) -> Result<Vec<u8>, Fail> {
    let mut spelled = Vec::new(alloc);
    put_stream(&mut spelled, text)?;
    let text = spelled.as_slice();
    let place = (0..bytes.len()).find(|at| stands_at(bytes, *at, text));
    let place = place.ok_or("a text")?;
    let back = bytes.get(place..).ok_or("a text")?;
    let mut changed = Vec::from_slice(alloc, bytes.get(..place).ok_or("a text")?)?;
    if other == "cut" {
        changed.extend_from_slice(text)?;
        return Ok(changed);
    }
    changed.extend_from_slice(other.as_bytes())?;
    changed.extend_from_slice(back.strip_prefix(text).unwrap_or(back))?;
    Ok(changed)
}

// A link that gives this input. To a deaf one nothing can be written.
fn link_with(alloc: Global, input: Vec<u8>, is_deaf: bool) -> Result<MemLink, Fail> {
    let mut writes = Vec::new(alloc);
    if is_deaf {
        writes.push(0)?;
    }
    let none = Vec::new(alloc);
    Ok(MemLink::new(alloc, input, 65_536, 65_536, none, writes)?)
}

// An accept with a link that gives these bytes, if there is one. The first call of a failing one fails.
fn accept_with(alloc: Global, input: Vec<u8>, word: &str) -> Result<MemAccept<MemLink>, Fail> {
    let mut links = Vec::new(alloc);
    if word != "none" {
        links.push(link_with(alloc, input, word == "deaf")?)?;
    }
    let mut failing = Vec::new(alloc);
    if word == "failing" {
        failing.push(0)?;
    }
    Ok(MemAccept::new(links, failing))
}

// The accept of a row.
fn accept_of(
    alloc: Global,
    word: &str,
    server: &Server,
    text: &str,
    other: &str,
) -> Result<MemAccept<MemLink>, Fail> {
    let replies = match word {
        "last" => server.last.as_slice(),
        "next" => server.next.as_slice(),
        _ => server.replies.as_slice(),
    };
    let input = if text == "-" {
        Vec::from_slice(alloc, replies)?
    } else {
        changed(alloc, replies, text, other)?
    };
    accept_with(alloc, input, word)
}

fn followed<R: Threads + Wait + Sync>(
    rt: &R,
    alloc: Global,
    link: &mut MemLink,
    opener: &mut Files,
    accept: MemAccept<MemLink>,
) -> Result<Ran<MemDisk, MemAccept<MemLink>, MemLink>, Fail> {
    let words = words(alloc, "hg_cli follow repository 127.0.0.1:8080")?;
    let clock = FixedClock { moment: 0 };
    Ok(run(
        rt,
        alloc,
        keys()?,
        words.as_slice(),
        link,
        opener,
        accept,
        &NoGate,
        &clock,
    ))
}

// Whether the link is taken: not where none comes, nor where the file isn't opened or is old.
fn is_taken(file: &str, link: &str) -> bool {
    !matches!(file, "old" | "damaged" | "none") && !matches!(link, "none" | "failing")
}

// The run ended with this status and said this, and a server that was followed to its end has left its file.
fn check_left(
    rt: &impl Abort,
    ran: &Ran<MemDisk, MemAccept<MemLink>, MemLink>,
    server: &Server,
    status: &str,
    row: &str,
) {
    assert_eq!(rt; ran.status, status_of(status), "{row}");
    if status == "done" {
        let left = match &ran.disk {
            Some(disk) => disk.bytes(),
            None => &[],
        };
        same_bytes(rt, left, server.file.as_slice(), row);
    }
}

fn check_end<R: Abort + Threads + Wait + Sync>(
    rt: &R,
    alloc: Global,
    server: &Server,
    row: &str,
) -> Result<(), Fail> {
    let (file, rest) = cut(row);
    let (peer, rest) = cut(rest);
    let (text, rest) = cut(rest);
    let (other, rest) = cut(rest);
    let (room, rest) = cut(rest);
    let (line, status) = cut(rest);
    let mut link = link_with_room(alloc, b"", size(room)?)?;
    let mut opener = files_of(alloc, file, server)?;
    let accept = accept_of(alloc, peer, server, text, other)?;
    let ran = followed(rt, alloc, &mut link, &mut opener, accept)?;
    check_left(rt, &ran, server, status, row);
    assert_eq!(rt; ran.link.is_some(), is_taken(file, peer), "{row}");
    let written = link.written();
    let written = written.strip_suffix(b"\n").unwrap_or(written);
    same_bytes(rt, written, line.as_bytes(), row);
    Ok(())
}

#[test]
fn a_server_is_followed_and_the_end_told(rt: HostRuntime) -> Result<(), Fail> {
    let server = server_of(&rt, rt.alloc())?;
    for row in ENDS.lines() {
        check_end(&rt, rt.alloc(), &server, row)?;
    }
    Ok(())
}
