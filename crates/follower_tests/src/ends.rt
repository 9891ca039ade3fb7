//! Every end of following a server: one that replies as it should, one that doesn't, and links, disks and files that fail.
use crate::following::{CALM, Failing, follow_from};
use crate::replying::{ASKED, CHANGES, file_after, questions_of, replies};
use crate::repository::{NEW, OLD, SMALL};
use blob_disk::CallKind;
use follower::{FollowEnd, Followed};
use std::alloc::{AllocError, Global};
use std::process::Abort;
use std::test::Fail;

/// A text of the replies, what stands there instead of it where it first stands, and how following ends then; behind `cut`
/// nothing follows the text. `^` is the end of a line, and `LONG` is 16,384 bytes.
const REPLIES: &str = r#"H | cut | bad reply at 0, 0
"kind":"content" | cut | bad reply at 0, 0
"total":12}HTTP/1.1 2 | cut | bad reply at 0, 0
3^^ab | cut | bad reply at 0, 0
HTTP/1.1 200 OK | HTTP/1.1 404 Not Found | bad reply at 0, 0
HTTP/1.1 200 OK | HTTP/1.1 201 Created | bad reply at 0, 0
HTTP/1.1 | HTTP/1.0 | bad reply at 0, 0
HTTP/1.1 | ^HTTP/1.1 | bad reply at 0, 0
Content-Type | x: LONG^Content-Type | bad reply at 0, 0
Content-Type: application/json | Server: x^content-type: application/json | same, 12
Content-Type: application/json | Content-Length: 1^Content-Type: application/json | bad reply at 0, 0
Content-Type: application/json | Content-Type: text/html | bad reply at 0, 0
Content-Type: application/json | Content-Type: application/octet-stream | bad reply at 0, 0
Content-Type: application/octet-stream | Content-Type: application/json | bad reply at 0, 0
^Content-Length | ^Transfer-Encoding: chunked^Content-Length | bad reply at 0, 0
Content-Length: | Content-Length: 9999999 | bad reply at 0, 0
Content-Length: 3^^abc | Content-Length: 67108865^^abc | bad reply at 0, 0
"number":1, | "number":2, | bad reply at 0, 0
"number":1, | "number":0, | bad reply at 0, 0
"kind":"policy" | "kind":"people" | bad reply at 0, 0
}],"total":12} | }],"total":11} | bad reply at 0, 0
}],"total":12} | }],"total":99} | same, 12
[],"total":12} | [],"total":13} | bad reply at 12, 12
[],"total":12} | [],"total":11} | differs at 11, 12
[],"total":12} | [ ],"total":12} | bad reply at 12, 12
3^^abc | 3^^abd | differs at 0, 0
3^^abc | 2^^ab | differs at 0, 0
Content-Length: 0^^ | Content-Length: 3^^abc | differs at 1, 1
200 OK^Content-Type: application/octet-stream | 404 Not Found^Content-Type: application/octet-stream | bad reply at 0, 0
"number":0,"size":3 | "number":0,"size":4 | differs at 0, 0
"name":"main" | "name":"moin" | differs at 6, 6
"old":"6 | "old":"7 | differs at 6, 6
"ids":["6 | "ids":["7 | differs at 6, 6
"number":7,"parts":["b | "number":7,"parts":["c | differs at 7, 7
"moment":1000 | "moment":1001 | differs at 9, 9
"rules":1 | "rules":2 | differs at 10, 10
allow ann | allot ann | differs at 10, 10
allow ann | allow bob | differs at 11, 11
"caller":"ann" | "caller":"bob" | differs at 11, 11"#;

// Which calls fail, and how following ends then.
struct Fault {
    failing: Failing,
    end: &'static str,
}

// A file is opened with two reads and a sync, and each entry is sealed with two writes and two syncs. Joining reads.
const FAULTS: &[Fault] = &[
    Fault {
        failing: Failing {
            reads: &[0],
            ..CALM
        },
        end: "link fault, 0",
    },
    Fault {
        failing: Failing {
            writes: &[0],
            ..CALM
        },
        end: "link fault, 0",
    },
    Fault {
        failing: Failing {
            writes: &[2],
            ..CALM
        },
        end: "link fault, 1",
    },
    Fault {
        failing: Failing {
            disk: &[(CallKind::Write, 0)],
            ..CALM
        },
        end: "disk fault, 0",
    },
    Fault {
        failing: Failing {
            disk: &[(CallKind::Sync, 3)],
            ..CALM
        },
        end: "disk fault, 1",
    },
    Fault {
        failing: Failing {
            disk: &[(CallKind::Read, 2)],
            ..CALM
        },
        end: "disk fault, 7",
    },
];

// How following ended, and how many entries are sealed then.
fn told(alloc: Global, followed: Followed) -> Result<String, AllocError> {
    let entries = followed.entries;
    match followed.end {
        FollowEnd::Same => format!(in alloc; "same, {entries}"),
        FollowEnd::LinkFault => format!(in alloc; "link fault, {entries}"),
        FollowEnd::BadReply { number } => format!(in alloc; "bad reply at {number}, {entries}"),
        FollowEnd::Differs { number } => format!(in alloc; "differs at {number}, {entries}"),
        FollowEnd::Full { number } => format!(in alloc; "full at {number}, {entries}"),
        FollowEnd::DiskFault => format!(in alloc; "disk fault, {entries}"),
        FollowEnd::OldFormat => format!(in alloc; "old format, {entries}"),
        FollowEnd::Memory => format!(in alloc; "memory, {entries}"),
    }
}

fn cut(row: &str) -> (&str, &str) {
    row.split_once(" | ").unwrap_or((row, ""))
}

// The text of a row.
fn spelled(alloc: Global, text: &str) -> Result<String, Fail> {
    let long = vec![in alloc; b'a'; 16_384]?;
    let text = text.replace(alloc, "LONG", str::from_utf8(long.as_slice())?)?;
    Ok(text.replace(alloc, "^", "\r\n")?)
}

// Where a text first stands.
fn place_of(bytes: &[u8], text: &[u8]) -> Result<usize, Fail> {
    match (0..bytes.len()).find(|&at| bytes[at..].starts_with(text)) {
        Some(at) => Ok(at),
        None => Err(Fail::from("a text")),
    }
}

// The bytes where another text stands for this one, or that end behind it.
fn changed(alloc: Global, bytes: &[u8], text: &str, other: &str) -> Result<Vec<u8>, Fail> {
    let text = spelled(alloc, text)?;
    let at = place_of(bytes, text.as_bytes())?;
    let (front, back) = bytes.split_at(at.min(bytes.len()));
    let mut changed = Vec::from_slice(alloc, front)?;
    if other == "cut" {
        changed.extend_from_slice(text.as_bytes())?;
        return Ok(changed);
    }
    let other = spelled(alloc, other)?;
    changed.extend_from_slice(other.as_bytes())?;
    changed.extend_from_slice(back.strip_prefix(text.as_bytes()).unwrap_or(back))?;
    Ok(changed)
}

// Following ended so, in the case of this row.
fn check_told(
    rt: &impl Abort,
    alloc: Global,
    followed: Followed,
    end: &str,
    row: &str,
) -> Result<(), Fail> {
    let told = told(alloc, followed)?;
    assert_eq!(rt; told.as_str(), end, "{row}");
    Ok(())
}

// Following ends so, from a file in hex.
fn check_end(
    rt: &impl Abort,
    alloc: Global,
    file: &str,
    replies: &[u8],
    failing: Failing,
    end: &str,
    row: &str,
) -> Result<(), Fail> {
    let file = hex::decode(alloc, file)?;
    let left = follow_from(alloc, file.as_slice(), replies, failing)?;
    check_told(rt, alloc, left.followed, end, row)
}

fn check_row(rt: &impl Abort, alloc: Global, replies: &[u8], row: &str) -> Result<(), Fail> {
    let (text, rest) = cut(row);
    let (other, end) = cut(rest);
    let changed = changed(alloc, replies, text, other)?;
    check_end(rt, alloc, NEW, changed.as_slice(), CALM, end, row)
}

fn check_fault(rt: &impl Abort, alloc: Global, replies: &[u8], fault: &Fault) -> Result<(), Fail> {
    let end = fault.end;
    check_end(rt, alloc, NEW, replies, fault.failing, end, end)
}

#[test]
fn each_reply_is_taken_as_it_is(rt: HostRuntime) -> Result<(), Fail> {
    let alloc = rt.alloc();
    let replies = replies(alloc, CHANGES, ASKED)?;
    for row in REPLIES.lines() {
        check_row(&rt, alloc, replies.as_slice(), row)?;
    }
    for fault in FAULTS {
        check_fault(&rt, alloc, replies.as_slice(), fault)?;
    }
    let end = "old format, 0";
    check_end(&rt, alloc, OLD, replies.as_slice(), CALM, end, end)
}

/// A content that fills a file of 4,096 bytes and one byte more, by its SHA-256 (FIPS 180-4).
const LARGE: &str = "\
/log/0
/content/f7a278039c6e917e51578b00c485b6770254ccac3b98b846a3f79dc7c8577788
/log/1";

#[test]
fn what_has_no_room_ends_it(rt: HostRuntime) -> Result<(), Fail> {
    let alloc = rt.alloc();
    let replies = replies(alloc, "PUT /content | a*4074", LARGE)?;
    let (full, same) = ("full at 0, 0", "same, 1");
    check_end(&rt, alloc, SMALL, replies.as_slice(), CALM, full, full)?;
    check_end(&rt, alloc, NEW, replies.as_slice(), CALM, same, same)
}

// This file is left by one that asks for these targets.
fn check_same(
    rt: &impl Abort,
    alloc: Global,
    file: &[u8],
    targets: &str,
    wanted: &[u8],
) -> Result<(), Fail> {
    let replies = replies(alloc, CHANGES, targets)?;
    let left = follow_from(alloc, file, replies.as_slice(), CALM)?;
    let asked = questions_of(alloc, targets)?;
    assert_eq!(rt; left.asked.as_slice(), asked.as_slice());
    assert_eq!(rt; left.file.as_slice(), wanted);
    check_told(rt, alloc, left.followed, "same, 12", targets)
}

#[test]
fn a_followed_file_is_the_same_byte_for_byte(rt: HostRuntime) -> Result<(), Fail> {
    let alloc = rt.alloc();
    let new = hex::decode(alloc, NEW)?;
    let file = file_after(alloc, CHANGES)?;
    check_same(&rt, alloc, new.as_slice(), ASKED, file.as_slice())?;
    check_same(&rt, alloc, file.as_slice(), "/log/12", file.as_slice())
}
