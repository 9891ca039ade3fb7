//! Sessions over memory, as scripts have them.
use crate::program::{Came, INIT, link_of, made, run_line};
use blob_disk::MemDisk;
use command_line::Status;
use ports::MemLink;
use std::alloc::{AllocError, Global};
use std::process::Abort;
use std::sync::Wait;
use std::test::Fail;
use std::thread::Threads;

/// What a session reads, and what it has to write.
#[derive(Drop)]
pub(crate) struct Script {
    pub(crate) input: Vec<u8>,
    pub(crate) wanted: Vec<u8>,
}

/// The first field of a script's line, and those after it.
pub(crate) fn cut(line: &str) -> (&str, &str) {
    line.split_once(" | ").unwrap_or((line, ""))
}

/// A link that reads at most `piece` bytes at once. The listed reads and writes fail.
fn failing_link(
    alloc: Global,
    input: &[u8],
    piece: usize,
    reads: &[u64],
    writes: &[u64],
) -> Result<MemLink, Fail> {
    let bytes = Vec::from_slice(alloc, input)?;
    let reads = Vec::from_slice(alloc, reads)?;
    let writes = Vec::from_slice(alloc, writes)?;
    Ok(MemLink::new(alloc, bytes, piece.max(1), 65_536, reads, writes)?)
}

/// Runs a session on a new repository and this input, of which one read gives at most `piece` bytes. The listed reads
/// and writes fail.
pub(crate) fn session<R: Threads + Wait + Sync>(
    rt: &R,
    alloc: Global,
    input: &[u8],
    piece: usize,
    reads: &[u64],
    writes: &[u64],
) -> Result<Came, Fail> {
    let link = failing_link(alloc, input, piece, reads, writes)?;
    let disk = made(rt, alloc, INIT)?;
    run_line(rt, alloc, "hg_cli session repository", link, Some(disk))
}

fn put_hex(alloc: Global, out: &mut Vec<u8>, digits: &str) -> Result<(), Fail> {
    let bytes = hex::decode(alloc, digits)?;
    Ok(out.extend_from_slice(bytes.as_slice())?)
}

/// Puts bytes: in hex after `0x`, or a text as it is.
pub(crate) fn put_bytes(alloc: Global, out: &mut Vec<u8>, text: &str) -> Result<(), Fail> {
    match text.strip_prefix("0x") {
        Some(digits) => put_hex(alloc, out, digits),
        None => Ok(out.extend_from_slice(text.as_bytes())?),
    }
}

/// The bytes that a text stands for.
pub(crate) fn bytes_of(alloc: Global, text: &str) -> Result<Vec<u8>, Fail> {
    let mut bytes = Vec::new(alloc);
    put_bytes(alloc, &mut bytes, text)?;
    Ok(bytes)
}

fn kind_of(text: &str) -> &'static str {
    if text.starts_with("0x") {
        "octet-stream"
    } else {
        "json"
    }
}

// The end of a head, which has this header field more unless it is `-`.
fn put_field(out: &mut Vec<u8>, field: &str) -> Result<(), AllocError> {
    if field != "-" && !field.is_empty() {
        out.extend_from_slice(field.as_bytes())?;
        out.extend_from_slice(b"\r\n")?;
    }
    out.extend_from_slice(b"\r\n")
}

fn head_of(alloc: Global, status: &str, kind: &str, length: usize) -> Result<String, AllocError> {
    format!(in alloc;
        "HTTP/1.1 {status}\r\nContent-Type: application/{kind}\r\nContent-Length: {length}\r\n"
    )
}

// A response with this body, or after `!` its head alone.
fn put_response(
    alloc: Global,
    out: &mut Vec<u8>,
    status: &str,
    answer: &str,
    field: &str,
) -> Result<(), Fail> {
    let text = answer.strip_prefix("!").unwrap_or(answer);
    let body = bytes_of(alloc, text)?;
    let head = head_of(alloc, status, kind_of(text), body.len())?;
    out.extend_from_slice(head.as_bytes())?;
    put_field(out, field)?;
    if !answer.starts_with("!") {
        out.extend_from_slice(body.as_slice())?;
    }
    Ok(())
}

/// The head of a request whose body has this length. Who asks stands behind `@`, where that is told.
pub(crate) fn asking(alloc: Global, request: &str, length: usize) -> Result<String, AllocError> {
    match request.split_once(" @") {
        Some((request, caller)) => format!(in alloc;
            "{request} HTTP/1.1\r\nCaller: {caller}\r\nContent-Length: {length}\r\n\r\n"
        ),
        None => format!(in alloc; "{request} HTTP/1.1\r\nContent-Length: {length}\r\n\r\n"),
    }
}

fn put_request(alloc: Global, out: &mut Vec<u8>, request: &str, text: &str) -> Result<(), Fail> {
    let body = bytes_of(alloc, text)?;
    let head = asking(alloc, request, body.len())?;
    out.extend_from_slice(head.as_bytes())?;
    Ok(out.extend_from_slice(body.as_slice())?)
}

// Puts the request of a line `METHOD TARGET | BODY | STATUS | ANSWER | FIELD`, and its response.
fn put_exchange(alloc: Global, script: &mut Script, line: &str) -> Result<(), Fail> {
    let (request, rest) = cut(line);
    let (body, rest) = cut(rest);
    let (status, rest) = cut(rest);
    let (answer, field) = cut(rest);
    put_request(alloc, &mut script.input, request, body)?;
    put_response(alloc, &mut script.wanted, status, answer, field)
}

/// The requests of a script and their responses, each from a line `METHOD TARGET | BODY | STATUS | ANSWER | FIELD`.
pub(crate) fn script_of(alloc: Global, lines: &str) -> Result<Script, Fail> {
    let mut script = Script {
        input: Vec::new(alloc),
        wanted: Vec::new(alloc),
    };
    for line in lines.lines() {
        put_exchange(alloc, &mut script, line)?;
    }
    Ok(script)
}

/// Runs a session of this script on the disk, which ends so and writes the responses.
pub(crate) fn played<R: Abort + Threads + Wait + Sync>(
    rt: &R,
    alloc: Global,
    disk: MemDisk,
    lines: &str,
    status: Status,
) -> Result<Came, Fail> {
    let script = script_of(alloc, lines)?;
    let link = link_of(alloc, script.input.as_slice())?;
    let came = run_line(rt, alloc, "hg_cli session repository", link, Some(disk))?;
    came.check(rt, status, script.wanted.as_slice(), lines);
    Ok(came)
}

/// The bytes of a stream as a script has it: `~` for CR LF, `^` for LF, `\`` for CR and `#` for a tab.
pub(crate) fn put_stream(out: &mut Vec<u8>, text: &str) -> Result<(), Fail> {
    for byte in text.as_bytes() {
        if *byte == b'~' {
            out.push(b'\r')?;
        }
        out.push(spelled(*byte))?;
    }
    Ok(())
}

// The last byte that a stream's character stands for.
fn spelled(byte: u8) -> u8 {
    match byte {
        b'~' | b'^' => b'\n',
        b'`' => b'\r',
        b'#' => b'\t',
        other => other,
    }
}

/// The responses that are fields of a script's line, three each.
pub(crate) fn put_responses(alloc: Global, out: &mut Vec<u8>, responses: &str) -> Result<(), Fail> {
    let mut rest = responses;
    for _ in 0..responses.len() {
        let (status, more) = cut(rest);
        let (answer, more) = cut(more);
        let (field, more) = cut(more);
        put_response(alloc, out, status, answer, field)?;
        if more.is_empty() {
            break;
        }
        rest = more;
    }
    Ok(())
}
