//! Streams by tables, each cut into pieces of several sizes. A line has a stream and what is told of it. In both `~` stands
//! for CR LF, `^` for LF, `` ` `` for CR, `#` for a tab and `@` for a zero byte.
use http_wire::{Cutter, HeadRefusal, MOST_PIECE, MOST_REQUEST, Next, Request, Version};
use std::alloc::{AllocError, Global};
use std::process::Abort;
use std::test::Fail;

const SIZES: [usize; 5] = [1, 2, 3, 7, 65_536];

/// What stood first in a cutter.
#[derive(Clone, Copy)]
enum First {
    Request,
    NeedsMore,
    Refused,
}

fn version_of(request: &Request) -> &'static str {
    match request.version {
        Version::Http10 => "1.0",
        Version::Http11 => "1.1",
    }
}

fn end_of(request: &Request) -> &'static str {
    match (request.close, request.head_only) {
        (false, false) => "open",
        (false, true) => "open head",
        (true, false) => "close",
        (true, true) => "close head",
    }
}

fn put_request_line(out: &mut String, request: &Request) -> Result<(), Fail> {
    let (method, target) = (request.method.as_str(), request.target.as_str());
    Ok(write!(out, "{method} {target} ")?)
}

fn put_request(out: &mut String, request: &Request) -> Result<(), Fail> {
    put_request_line(out, request)?;
    let (version, end) = (version_of(request), end_of(request));
    let body = str::from_utf8(request.body.as_slice())?;
    Ok(writeln!(out, "{version} {end} {body}")?)
}

fn put_refusal(out: &mut String, status: u16, code: HeadRefusal) -> Result<(), Fail> {
    if status != code.status().as_u16() {
        return Err(Fail::from("the status of the code"));
    }
    Ok(writeln!(out, "{status} {}", code.code())?)
}

fn next(alloc: Global, cutter: &mut Cutter) -> Next {
    cutter.next(alloc)
}

// Adds a line of what stands first, if something does.
fn put_next(alloc: Global, cutter: &mut Cutter, out: &mut String) -> Result<First, Fail> {
    match next(alloc, cutter) {
        Next::Message(request) => {
            put_request(out, &request)?;
            Ok(First::Request)
        }
        Next::Memory { .. } => Err(Fail::from("no memory")),
        Next::NeedMore => Ok(First::NeedsMore),
        Next::Refused { status, code } => {
            put_refusal(out, status.as_u16(), code)?;
            Ok(First::Refused)
        }
    }
}

// Adds what the cutter tells of its bytes, a line each. It is true where more may be fed.
fn put_lines(alloc: Global, cutter: &mut Cutter, out: &mut String) -> Result<bool, Fail> {
    for _ in 0..MOST_REQUEST {
        match put_next(alloc, cutter, out)? {
            First::Request => {}
            First::NeedsMore => return Ok(true),
            First::Refused => return Ok(false),
        }
    }
    Ok(true)
}

fn feed(rt: &impl Abort, cutter: &mut Cutter, piece: &[u8]) {
    assert!(rt; cutter.waiting() < MOST_REQUEST);
    assert!(rt; piece.len() <= MOST_PIECE);
    cutter.feed(piece);
}

fn put_all(
    rt: &impl Abort,
    alloc: Global,
    cutter: &mut Cutter,
    out: &mut String,
    stream: &[u8],
    size: usize,
) -> Result<(), Fail> {
    for piece in stream.chunks(size.max(1)) {
        feed(rt, cutter, piece);
        if !put_lines(alloc, cutter, out)? {
            return Ok(());
        }
    }
    Ok(write!(out, "{} left", cutter.waiting())?)
}

// What a cutter tells of the stream, fed in pieces of this size, and how many bytes are left.
fn told(rt: &impl Abort, alloc: Global, stream: &[u8], size: usize) -> Result<String, Fail> {
    let mut cutter = Cutter::new(alloc)?;
    let mut out = String::new(alloc);
    put_all(rt, alloc, &mut cutter, &mut out, stream, size)?;
    Ok(out)
}

fn check(rt: &impl Abort, alloc: Global, stream: &[u8], wanted: &str) -> Result<(), Fail> {
    for size in SIZES {
        let lines = told(rt, alloc, stream, size)?;
        assert_eq!(rt; lines.as_str(), wanted, "pieces of {size}");
    }
    Ok(())
}

// Adds what a text stands for.
fn put_marked(out: &mut String, text: &str) -> Result<(), AllocError> {
    for letter in text.chars() {
        match letter {
            '~' => out.push_str("\r\n")?,
            '^' => out.push('\n')?,
            '`' => out.push('\r')?,
            '#' => out.push('\t')?,
            '@' => out.push('\0')?,
            other => out.push(other)?,
        }
    }
    Ok(())
}

fn marked(alloc: Global, text: &str) -> Result<String, AllocError> {
    let mut out = String::new(alloc);
    put_marked(&mut out, text)?;
    Ok(out)
}

fn cut(line: &str) -> (&str, &str) {
    line.split_once(" | ").unwrap_or((line, ""))
}

fn check_line(rt: &impl Abort, alloc: Global, line: &str) -> Result<(), Fail> {
    let (stream, wanted) = cut(line);
    let stream = marked(alloc, stream)?;
    let wanted = marked(alloc, wanted)?;
    check(rt, alloc, stream.as_bytes(), wanted.as_str())
}

fn check_all(rt: &impl Abort, alloc: Global, rows: &str) -> Result<(), Fail> {
    for line in rows.lines() {
        check_line(rt, alloc, line)?;
    }
    Ok(())
}

const REQUESTS: &str = r#" | 0 left
PUT /content HTTP/1.1~Content-Length: 3~~abc | PUT /content 1.1 open abc^0 left
PUT /content HTTP/1.1~Content-Length: 3~~abcGET /boo | PUT /content 1.1 open abc^8 left
GET / HTTP/1.1^^ | GET / 1.1 open ^0 left
GET / HTTP/1.1^host: x~^ | GET / 1.1 open ^0 left
~^~GET /a?b HTTP/1.1~~^~HEAD /c HTTP/1.1~~~ | GET /a?b 1.1 open ^HEAD /c 1.1 open head ^0 left
PUT /changeset HTTP/1.1~CONTENT-LENGTH: 2 #~~~DELETE /x HTTP/1.1~~ | PUT /changeset 1.1 open ~^DELETE /x 1.1 open ^0 left
POST /land/main/x HTTP/1.1^content-length: 0^^GET / HTTP/1.1~Conten | POST /land/main/x 1.1 open ^22 left
PUT /x HTTP/1.1~~ | PUT /x 1.1 open ^0 left
GET /content HTTP/1.1~~ | GET /content 1.1 open ^0 left
` | 1 left
~` | 1 left
GET / HTTP/1.1~` | 17 left"#;

#[test]
fn requests(rt: HostRuntime) -> Result<(), Fail> {
    check_all(&rt, rt.alloc(), REQUESTS)
}

const ENDS: &str = r#"GET / HTTP/1.1~Connection: close~~ | GET / 1.1 close ^0 left
GET / HTTP/1.1~CONNECTION: CLOSE~~ | GET / 1.1 close ^0 left
GET / HTTP/1.1~connection: keep-alive , # Close#~~ | GET / 1.1 close ^0 left
GET / HTTP/1.1~Connection: close,x~~ | GET / 1.1 close ^0 left
GET / HTTP/1.1~Connection: x~A: b~Connection: close~~ | GET / 1.1 close ^0 left
GET / HTTP/1.1~Connection: closed~~ | GET / 1.1 open ^0 left
GET / HTTP/1.1~Connection: x close~~ | GET / 1.1 open ^0 left
GET / HTTP/1.1~Connections: close~~ | GET / 1.1 open ^0 left
GET / HTTP/1.1~Connection:~~ | GET / 1.1 open ^0 left
GET / HTTP/1.0~~ | GET / 1.0 close ^0 left
GET / HTTP/1.0~Connection: keep-alive~~ | GET / 1.0 close ^0 left"#;

#[test]
fn ends_of_sessions(rt: HostRuntime) -> Result<(), Fail> {
    check_all(&rt, rt.alloc(), ENDS)
}

const REFUSALS: &str = r#"GET /~~ | 400 bad-head^
GET / HTTP/2.0~~ | 400 bad-head^
 GET / HTTP/1.1~~ | 400 bad-head^
GET / HTTP/1.1~Host~~ | 400 bad-head^
GET / HTTP/1.1~A: b~ c~~ | 400 bad-head^
`GET / HTTP/1.1~~ | 400 bad-head^
GET / HTTP/1.1~~@^^ | GET / 1.1 open ^400 bad-head^
GET / HTTP/1.1~Transfer-Encoding: chunked~~ | 501 transfer-encoding^
PUT /content HTTP/1.1~transfer-encoding: identity~Content-Length: x~~ | 501 transfer-encoding^
PUT /content HTTP/1.1~Content-Length: 3~Content-Length: 3~~abc | 400 bad-length^
PUT /content HTTP/1.1~Content-Length: 3~content-length: x~~abc | 400 bad-length^
GET / HTTP/1.1~Content-Length: +3~~abc | 400 bad-length^
GET / HTTP/1.1~Content-Length:~~ | 400 bad-length^
GET / HTTP/1.1~Content-Length: 3 3~~ | 400 bad-length^
GET / HTTP/1.1~Content-Length: 3, 3~~ | 400 bad-length^
PUT /content HTTP/1.1~~ | 411 no-length^
PUT /changeset?x HTTP/1.1~~ | 411 no-length^
PUT /content HTTP/1.1~Content-Length: 1048577~~ | 413 body-too-large^
GET / HTTP/1.1~Content-Length: 99999999999999999999~~ | 413 body-too-large^"#;

#[test]
fn refusals(rt: HostRuntime) -> Result<(), Fail> {
    check_all(&rt, rt.alloc(), REFUSALS)
}

// A front, a part, how often it stands there, a back, and what is told.
const BOUNDS: &str = r#"GET / | a | 16379 |  | 431 head-too-large^
GET / | a | 16378 |  | 16383 left
GET / HTTP/1.1~A: |   | 16364 | ^^ | GET / 1.1 open ^0 left
GET / HTTP/1.1~A: |   | 16365 | ^^ | 431 head-too-large^
GET / HTTP/1.1^ | A:^ | 64 | ^ | GET / 1.1 open ^0 left
GET / HTTP/1.1^ | A:^ | 65 | ^ | 431 too-many-headers^
GET / HTTP/1.1^ | A:^ | 65 | Transfer-Encoding: x^^ | 431 too-many-headers^
GET / HTTP/1.1^ | A:^ | 65 | B^^ | 400 bad-head^
GET / HTTP/1.1^ | A:^ | 5456 | ^ | 431 too-many-headers^
 | ~ | 20000 |  | 0 left
 | ~ | 20000 | ` | 1 left"#;

// Adds a part so many times behind a front.
fn put_repeated(
    out: &mut String,
    front: &str,
    part: &str,
    times: usize,
    back: &str,
) -> Result<(), AllocError> {
    put_marked(out, front)?;
    for _ in 0..times {
        put_marked(out, part)?;
    }
    put_marked(out, back)
}

fn count(digits: &str) -> Result<usize, Fail> {
    Ok(digits.parse()?)
}

// A part so many times behind a front.
fn repeated(
    alloc: Global,
    front: &str,
    part: &str,
    times: usize,
    back: &str,
) -> Result<String, AllocError> {
    let mut stream = String::new(alloc);
    put_repeated(&mut stream, front, part, times, back)?;
    Ok(stream)
}

fn check_bound(rt: &impl Abort, alloc: Global, line: &str) -> Result<(), Fail> {
    let (front, rest) = cut(line);
    let (part, rest) = cut(rest);
    let (times, rest) = cut(rest);
    let (back, wanted) = cut(rest);
    let stream = repeated(alloc, front, part, count(times)?, back)?;
    let wanted = marked(alloc, wanted)?;
    check(rt, alloc, stream.as_bytes(), wanted.as_str())
}

#[test]
fn bounds(rt: HostRuntime) -> Result<(), Fail> {
    for line in BOUNDS.lines() {
        check_bound(&rt, rt.alloc(), line)?;
    }
    Ok(())
}

fn check_whole(rt: &impl Abort, alloc: Global, stream: &[u8]) -> Result<(), Fail> {
    let lines = told(rt, alloc, stream, 65_536)?;
    assert_eq!(rt; lines.len(), 1_048_605);
    assert!(rt; lines.as_str().ends_with("cdef\n3 left"));
    Ok(())
}

// The same without its last four bytes: the request is cut.
fn check_cut(rt: &impl Abort, alloc: Global, stream: &[u8]) -> Result<(), Fail> {
    let cut = stream.get(..1_048_622).ok_or("short")?;
    let lines = told(rt, alloc, cut, 65_536)?;
    assert_eq!(rt; lines.as_str(), "1048622 left");
    Ok(())
}

#[test]
fn longest_body(rt: HostRuntime) -> Result<(), Fail> {
    let front = "PUT /content HTTP/1.1^Content-Length: 1048576^^";
    let stream = repeated(rt.alloc(), front, "0123456789abcdef", 65_536, "GET")?;
    check_whole(&rt, rt.alloc(), stream.as_bytes())?;
    check_cut(&rt, rt.alloc(), stream.as_bytes())
}

#[test]
fn refusals_stay(rt: HostRuntime) -> Result<(), Fail> {
    let mut cutter = Cutter::new(rt.alloc())?;
    let mut out = String::new(rt.alloc());
    feed(&rt, &mut cutter, b"\r\nGET /\r\n\r\nGET / HTTP/1.1\r\n\r\n");
    for _ in 0..2 {
        let _told = put_next(rt.alloc(), &mut cutter, &mut out)?;
    }
    assert_eq!(rt; out.as_str(), "400 bad-head\n400 bad-head\n");
    Ok(())
}
