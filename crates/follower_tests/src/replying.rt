//! What a server replies.
use crate::repository::new_alone;
use blob_disk::Disk;
use http_front::session::serve_session;
use ports::{FixedClock, Link, MemLink};
use repo_state::Alone;
use stacked_calls::StackSeat;
use std::alloc::{AllocError, Global};
use std::test::Fail;

/// Two contents, a changeset, and one on it that `main` is made at; a draft beside that one, which lands; a content that is
/// joined; a draft of the second version, which is dated as it lands; a policy, and a move that it allows. Each makes an
/// entry. The ids are SHA-256 (FIPS 180-4) of the bytes that docs/FORMATS.md spells.
pub(crate) const CHANGES: &str = "\
PUT /content | abc
PUT /content |
PUT /changeset | 0x4301000001610000000000000000000000000000000000000000
PUT /changeset | 0x430101ffb74880ae0d3038b6e6e402ea0840634c79efb3c927e280d44f36567ece7169000161000000000000000000000000000000000000000100017801000000000000000003ba7816bf8f01cfea414140de5dae2223b00361a396177a9cb410ff61f20015ad
PUT /bookmark/main/none/6f0fd4791e9901030b778dc51bebc28effb042f328726c7f1689026f5b9c68c8 |
PUT /changeset | 0x430101ffb74880ae0d3038b6e6e402ea0840634c79efb3c927e280d44f36567ece7169000161000000000000000000000000000000000000000100017901000000000000000000e3b0c44298fc1c149afbf4c8996fb92427ae41e4649b934ca495991b7852b855
POST /land/main/640d00803ffd078abe99687f11f76e3949495f55dd88e999e6458f7adfdf79ac |
PUT /whole | 0xba7816bf8f01cfea414140de5dae2223b00361a396177a9cb410ff61f20015adba7816bf8f01cfea414140de5dae2223b00361a396177a9cb410ff61f20015ad
PUT /changeset | 0x430201ffb74880ae0d3038b6e6e402ea0840634c79efb3c927e280d44f36567ece7169000161000000006553f10000000000000000000000000100017001000000000000000003ba7816bf8f01cfea414140de5dae2223b00361a396177a9cb410ff61f20015ad00
POST /land/main/ca32756d1ac9b931dbdbd840b55d544be43952b6ba8a065fd572a7fab2c46413 |
PUT /policy @root | 0x616c6c6f7720616e6e202f0a
PUT /bookmark/main/54d4055e25c32c499b3edefba53e26bd14f5c1e6aec9726cb466d73b4788a5d5/ffb74880ae0d3038b6e6e402ea0840634c79efb3c927e280d44f36567ece7169 @ann |";

/// What is asked to follow that from its start, one target a line.
pub(crate) const ASKED: &str = "\
/log/0
/content/ba7816bf8f01cfea414140de5dae2223b00361a396177a9cb410ff61f20015ad
/content/e3b0c44298fc1c149afbf4c8996fb92427ae41e4649b934ca495991b7852b855
/changeset/ffb74880ae0d3038b6e6e402ea0840634c79efb3c927e280d44f36567ece7169
/changeset/6f0fd4791e9901030b778dc51bebc28effb042f328726c7f1689026f5b9c68c8
/changeset/640d00803ffd078abe99687f11f76e3949495f55dd88e999e6458f7adfdf79ac
/changeset/ca32756d1ac9b931dbdbd840b55d544be43952b6ba8a065fd572a7fab2c46413
/policy/10
/log/12";

// The first field of a line, and what is behind it.
fn cut(line: &str) -> (&str, &str) {
    line.split_once(" | ").unwrap_or((line, ""))
}

// The bytes that a text stands for: in hex after `0x`, so many `a` after `a*`, or as it is.
fn bytes_of(alloc: Global, text: &str) -> Result<Vec<u8>, Fail> {
    if let Some(digits) = text.strip_prefix("0x") {
        return Ok(hex::decode(alloc, digits)?);
    }
    if let Some(count) = text.strip_prefix("a*") {
        return Ok(vec![in alloc; b'a'; count.parse()?]?);
    }
    Ok(Vec::from_slice(alloc, text.as_bytes())?)
}

// The head of a request whose body has this length. Who asks stands behind `@`, where that is told.
fn head_of(alloc: Global, request: &str, length: usize) -> Result<String, AllocError> {
    match request.split_once(" @") {
        Some((request, caller)) => format!(in alloc;
            "{request} HTTP/1.1\r\nCaller: {caller}\r\nContent-Length: {length}\r\n\r\n"
        ),
        None => format!(in alloc; "{request} HTTP/1.1\r\nContent-Length: {length}\r\n\r\n"),
    }
}

fn put_request(alloc: Global, out: &mut Vec<u8>, line: &str) -> Result<(), Fail> {
    let (request, text) = cut(line.strip_suffix(" |").unwrap_or(line));
    let body = bytes_of(alloc, text)?;
    let head = head_of(alloc, request, body.len())?;
    out.extend_from_slice(head.as_bytes())?;
    Ok(out.extend_from_slice(body.as_slice())?)
}

// The requests of a script, one a line: its method and target, and behind ` | ` its body.
fn requests_of(alloc: Global, script: &str) -> Result<Vec<u8>, Fail> {
    let mut out = Vec::new(alloc);
    for line in script.lines() {
        put_request(alloc, &mut out, line)?;
    }
    Ok(out)
}

/// The requests for these targets, one a line, as a follower writes them.
pub(crate) fn questions_of(alloc: Global, targets: &str) -> Result<Vec<u8>, AllocError> {
    let mut out = Vec::new(alloc);
    for target in targets.lines() {
        let text = format!(in alloc; "GET {target} HTTP/1.1\r\nHost:\r\n\r\n")?;
        out.extend_from_slice(text.as_bytes())?;
    }
    Ok(out)
}

/// A link with this input.
pub(crate) fn link_with(
    alloc: Global,
    input: Vec<u8>,
    reads: Vec<u64>,
    writes: Vec<u64>,
) -> Result<MemLink, AllocError> {
    MemLink::new(alloc, input, 4_096, 65_536, reads, writes)
}

// Serves a link.
fn serve<T: StackSeat, L: Link>(alloc: Global, seat: &mut T, link: &mut L) {
    let clock = FixedClock { moment: 1_000 };
    let _ended = serve_session(alloc, seat, link, &clock);
}

// What is replied to these requests.
fn session<T: StackSeat>(alloc: Global, seat: &mut T, requests: Vec<u8>) -> Result<Vec<u8>, Fail> {
    let mut link = link_with(alloc, requests, Vec::new(alloc), Vec::new(alloc))?;
    serve(alloc, seat, &mut link);
    Ok(Vec::from_slice(alloc, link.written())?)
}

// What is replied to a follower that asks for these targets, after these changes.
fn told<T: StackSeat>(
    alloc: Global,
    seat: &mut T,
    changes: &str,
    targets: &str,
) -> Result<Vec<u8>, Fail> {
    let _made = session(alloc, seat, requests_of(alloc, changes)?)?;
    session(alloc, seat, questions_of(alloc, targets)?)
}

/// What the server of a new repository replies to a follower that asks for these targets, after these changes.
pub(crate) fn replies(alloc: Global, changes: &str, targets: &str) -> Result<Vec<u8>, Fail> {
    let mut alone = new_alone(alloc)?;
    told(alloc, &mut alone, changes, targets)
}

// The disk of a server after these changes.
fn changed<D: Disk>(alloc: Global, alone: Alone<D>, changes: &str) -> Result<D, Fail> {
    let mut alone = alone;
    let _made = session(alloc, &mut alone, requests_of(alloc, changes)?)?;
    Ok(alone.into_state().into_disk())
}

/// The file of the server of a new repository, after these changes.
pub(crate) fn file_after(alloc: Global, changes: &str) -> Result<Vec<u8>, Fail> {
    let disk = changed(alloc, new_alone(alloc)?, changes)?;
    Ok(Vec::from_slice(alloc, disk.bytes())?)
}
