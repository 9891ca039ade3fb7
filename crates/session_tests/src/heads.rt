//! Streams of requests: what is taken from them, what refuses a head, where it ends, and whether the session ends after
//! it. Each line has a stream, how its session ends, and its responses.
use crate::program::{size, status_of};
use crate::session::{cut, put_responses, put_stream, session};
use std::alloc::Global;
use std::process::Abort;
use std::sync::Wait;
use std::test::Fail;
use std::thread::Threads;

const STREAMS: &str = r#" | done
PUT /content HTTP/1.1~Content-Length: 3~~abc | done | 200 OK | {"code":"content","id":"ba7816bf8f01cfea414140de5dae2223b00361a396177a9cb410ff61f20015ad","size":3} | -
PUT /content HTTP/1.1~Content-Length: 0~~ | done | 200 OK | {"code":"content","id":"e3b0c44298fc1c149afbf4c8996fb92427ae41e4649b934ca495991b7852b855","size":0} | -
PUT /content HTTP/1.1~Content-Length: 3~~abcPUT /content HTTP/1.1~Content-Length: 3~~abc | done | 200 OK | {"code":"content","id":"ba7816bf8f01cfea414140de5dae2223b00361a396177a9cb410ff61f20015ad","size":3} | - | 200 OK | {"code":"content","id":"ba7816bf8f01cfea414140de5dae2223b00361a396177a9cb410ff61f20015ad","size":3} | -
~^PUT /content HTTP/1.1~Content-Length: 3~~abc~ | done | 200 OK | {"code":"content","id":"ba7816bf8f01cfea414140de5dae2223b00361a396177a9cb410ff61f20015ad","size":3} | -
PUT /content HTTP/1.1~Content-Length: 3~~abcGET /boo | cut | 200 OK | {"code":"content","id":"ba7816bf8f01cfea414140de5dae2223b00361a396177a9cb410ff61f20015ad","size":3} | -
PUT /content HTTP/1.1~Content-Length: 3~~abc` | cut | 200 OK | {"code":"content","id":"ba7816bf8f01cfea414140de5dae2223b00361a396177a9cb410ff61f20015ad","size":3} | -
GET / HTTP/1.1~` | cut
PUT /content HTTP/1.1~Transfer-Encoding: chunked~~PUT /content HTTP/1.1~Content-Length: 3~~abc | refused | 501 Not Implemented | {"code":"transfer-encoding"} | Connection: close
DELETE /content HTTP/1.1~~PUT /content HTTP/1.1~Content-Length: 3~~abc | done | 405 Method Not Allowed | {"code":"method"} | Allow: PUT | 200 OK | {"code":"content","id":"ba7816bf8f01cfea414140de5dae2223b00361a396177a9cb410ff61f20015ad","size":3} | -
HEAD /content?x HTTP/1.1~~PUT /content HTTP/1.1~Content-Length: 3~~abc | done | 405 Method Not Allowed | !{"code":"method"} | Allow: PUT | 200 OK | {"code":"content","id":"ba7816bf8f01cfea414140de5dae2223b00361a396177a9cb410ff61f20015ad","size":3} | -
PUT /bookmark/main/none/none HTTP/1.1~Caller: ann~CALLER: ann~~GET /bookmark/main HTTP/1.1~Caller: a b~~ | done | 400 Bad Request | {"code":"bad-caller"} | - | 404 Not Found | {"code":"no-bookmark"} | -
POST /land/main/x HTTP/1.1~Caller: a b~~POST /land/main/ba7816bf8f01cfea414140de5dae2223b00361a396177a9cb410ff61f20015ad HTTP/1.1~Caller: a b~~POST /land/main/ba7816bf8f01cfea414140de5dae2223b00361a396177a9cb410ff61f20015ad HTTP/1.1~Caller:~~ | done | 400 Bad Request | {"code":"bad-id","place":0} | - | 400 Bad Request | {"code":"bad-caller"} | - | 400 Bad Request | {"code":"bad-caller"} | -
PUT /policy HTTP/1.1~Content-Length: 9~Caller: a/b~~allow annPUT /policy HTTP/1.1~Content-Length: 9~Caller: ann~~allow ann | done | 400 Bad Request | {"code":"bad-caller"} | - | 422 Unprocessable Content | {"code":"bad-policy","line":0} | -
GET /nowhere HTTP/1.1^^GET content HTTP/1.1~~ | done | 404 Not Found | {"code":"no-route"} | - | 400 Bad Request | {"code":"bad-target"} | -
GET /nowhere HTTP/1.0~~PUT /content HTTP/1.1~Content-Length: 3~~abc | done | 404 Not Found | {"code":"no-route"} | Connection: close
PUT /content HTTP/1.1~Content-Length: 3~~abcGET nowhere~~PUT /content HTTP/1.1~Content-Length: 3~~abc | refused | 200 OK | {"code":"content","id":"ba7816bf8f01cfea414140de5dae2223b00361a396177a9cb410ff61f20015ad","size":3} | - | 400 Bad Request | {"code":"bad-head"} | Connection: close"#;

const HEADS: &str = r#"GET /~~ | refused | 400 Bad Request | {"code":"bad-head"} | Connection: close
GET / HTTP/2.0~~ | refused | 400 Bad Request | {"code":"bad-head"} | Connection: close
 GET / HTTP/1.1~~ | refused | 400 Bad Request | {"code":"bad-head"} | Connection: close
GET / HTTP/1.1~Host~~ | refused | 400 Bad Request | {"code":"bad-head"} | Connection: close
GET / HTTP/1.1~A: b~ c~~ | refused | 400 Bad Request | {"code":"bad-head"} | Connection: close
`GET / HTTP/1.1~~ | refused | 400 Bad Request | {"code":"bad-head"} | Connection: close
GET / HTTP/1.1~Transfer-Encoding: chunked~~ | refused | 501 Not Implemented | {"code":"transfer-encoding"} | Connection: close
PUT /content HTTP/1.1~transfer-encoding: identity~Content-Length: x~~ | refused | 501 Not Implemented | {"code":"transfer-encoding"} | Connection: close
PUT /content HTTP/1.1~Content-Length: 3~Content-Length: 3~~abc | refused | 400 Bad Request | {"code":"bad-length"} | Connection: close
PUT /content HTTP/1.1~Content-Length: 3~content-length: x~~abc | refused | 400 Bad Request | {"code":"bad-length"} | Connection: close
GET / HTTP/1.1~Content-Length: +3~~abc | refused | 400 Bad Request | {"code":"bad-length"} | Connection: close
GET / HTTP/1.1~Content-Length:~~ | refused | 400 Bad Request | {"code":"bad-length"} | Connection: close
GET / HTTP/1.1~Content-Length: 3, 3~~ | refused | 400 Bad Request | {"code":"bad-length"} | Connection: close
PUT /content HTTP/1.1~~ | refused | 411 Length Required | {"code":"no-length"} | Connection: close
PUT /changeset?x HTTP/1.1~~ | refused | 411 Length Required | {"code":"no-length"} | Connection: close
PUT /policy HTTP/1.1~~ | refused | 411 Length Required | {"code":"no-length"} | Connection: close
PUT /whole HTTP/1.1~~ | refused | 411 Length Required | {"code":"no-length"} | Connection: close
PUT /content HTTP/1.1~Content-Length: 1048577~~ | refused | 413 Content Too Large | {"code":"body-too-large"} | Connection: close
GET / HTTP/1.1~Content-Length: 99999999999999999999~~ | refused | 413 Content Too Large | {"code":"body-too-large"} | Connection: close
GET / HTTP/1.1~Connection: close~~GET / HTTP/1.1^^ | done | 404 Not Found | {"code":"no-route"} | Connection: close
GET / HTTP/1.1~CONNECTION: CLOSE~~GET / HTTP/1.1^^ | done | 404 Not Found | {"code":"no-route"} | Connection: close
GET / HTTP/1.1~connection: keep-alive , # Close#~~GET / HTTP/1.1^^ | done | 404 Not Found | {"code":"no-route"} | Connection: close
GET / HTTP/1.1~Connection: close,x~~GET / HTTP/1.1^^ | done | 404 Not Found | {"code":"no-route"} | Connection: close
GET / HTTP/1.0~~GET / HTTP/1.1^^ | done | 404 Not Found | {"code":"no-route"} | Connection: close
GET / HTTP/1.0~Connection: keep-alive~~GET / HTTP/1.1^^ | done | 404 Not Found | {"code":"no-route"} | Connection: close
GET / HTTP/1.1~Connection: closed~~ | done | 404 Not Found | {"code":"no-route"} | -
GET / HTTP/1.1~Connection: x close~~ | done | 404 Not Found | {"code":"no-route"} | -
GET / HTTP/1.1~Connections: close~~ | done | 404 Not Found | {"code":"no-route"} | -
GET / HTTP/1.1~Connection:~~ | done | 404 Not Found | {"code":"no-route"} | -
GET / HTTP/1.1~Connection: x~A: b~Connection: close~~GET / HTTP/1.1^^ | done | 404 Not Found | {"code":"no-route"} | Connection: close"#;

/// A front, a part, how often it stands there, and a back, in the place of the stream.
const BOUNDS: &str =
    r#"GET / | a | 16379 |  | refused | 431 Request Header Fields Too Large | {"code":"head-too-large"} | Connection: close
GET / HTTP/1.1~A: |   | 16364 | ^^ | done | 404 Not Found | {"code":"no-route"} | -
GET / HTTP/1.1~A: |   | 16365 | ^^ | refused | 431 Request Header Fields Too Large | {"code":"head-too-large"} | Connection: close
GET / HTTP/1.1^ | A:^ | 64 | ^ | done | 404 Not Found | {"code":"no-route"} | -
GET / HTTP/1.1^ | A:^ | 65 | ^ | refused | 431 Request Header Fields Too Large | {"code":"too-many-headers"} | Connection: close
GET / HTTP/1.1^ | A:^ | 65 | Transfer-Encoding: x^^ | refused | 431 Request Header Fields Too Large | {"code":"too-many-headers"} | Connection: close
GET / HTTP/1.1^ | A:^ | 65 | B^^ | refused | 400 Bad Request | {"code":"bad-head"} | Connection: close
GET / HTTP/1.1^ | A:^ | 5456 | ^ | refused | 431 Request Header Fields Too Large | {"code":"too-many-headers"} | Connection: close
 | ~ | 20000 | GET / HTTP/1.1~~ | done | 404 Not Found | {"code":"no-route"} | -"#;

// Reads a stream in one session, which ends so and writes these responses.
fn check<R: Abort + Threads + Wait + Sync>(
    rt: &R,
    alloc: Global,
    stream: &[u8],
    end: &str,
    responses: &str,
    piece: usize,
) -> Result<(), Fail> {
    let came = session(rt, alloc, stream, piece, &[], &[])?;
    let mut wanted = Vec::new(alloc);
    put_responses(alloc, &mut wanted, responses)?;
    came.check(rt, status_of(end), wanted.as_slice(), responses);
    Ok(())
}

fn check_line<R: Abort + Threads + Wait + Sync>(
    rt: &R,
    alloc: Global,
    line: &str,
    piece: usize,
) -> Result<(), Fail> {
    let (stream, rest) = cut(line);
    let (end, responses) = cut(rest);
    let mut bytes = Vec::new(alloc);
    put_stream(&mut bytes, stream)?;
    check(rt, alloc, bytes.as_slice(), end, responses, piece)
}

fn check_all<R: Abort + Threads + Wait + Sync>(
    rt: &R,
    alloc: Global,
    rows: &str,
    piece: usize,
) -> Result<(), Fail> {
    for line in rows.lines() {
        check_line(rt, alloc, line, piece)?;
    }
    Ok(())
}

#[test]
fn streams_are_taken_in_any_pieces(rt: HostRuntime) -> Result<(), Fail> {
    check_all(&rt, rt.alloc(), STREAMS, 1)?;
    check_all(&rt, rt.alloc(), STREAMS, 65_536)?;
    check_all(&rt, rt.alloc(), HEADS, 7)
}

// A front, a part so many times, and a back.
fn repeated(
    alloc: Global,
    front: &str,
    part: &str,
    times: usize,
    back: &str,
) -> Result<Vec<u8>, Fail> {
    let mut bytes = Vec::new(alloc);
    put_stream(&mut bytes, front)?;
    for _ in 0..times {
        put_stream(&mut bytes, part)?;
    }
    put_stream(&mut bytes, back)?;
    Ok(bytes)
}

fn check_bound<R: Abort + Threads + Wait + Sync>(
    rt: &R,
    alloc: Global,
    line: &str,
) -> Result<(), Fail> {
    let (front, rest) = cut(line);
    let (part, rest) = cut(rest);
    let (times, rest) = cut(rest);
    let (back, rest) = cut(rest);
    let (end, responses) = cut(rest);
    let stream = repeated(alloc, front, part, size(times)?, back)?;
    check(rt, alloc, stream.as_slice(), end, responses, 65_536)
}

#[test]
fn heads_have_bounds(rt: HostRuntime) -> Result<(), Fail> {
    for line in BOUNDS.lines() {
        check_bound(&rt, rt.alloc(), line)?;
    }
    Ok(())
}

// The repository has room for 65,536 bytes: a header of 17, and a record of 5 and the payload.
const FULL: &str = r#"507 Insufficient Storage | {"code":"full","length":1048577,"size":17} | -"#;

#[test]
fn the_longest_body_is_taken_whole(rt: HostRuntime) -> Result<(), Fail> {
    let front = "PUT /content HTTP/1.1^Content-Length: 1048576^^";
    let stream = repeated(rt.alloc(), front, "0123456789abcdef", 65_536, "")?;
    check(&rt, rt.alloc(), stream.as_slice(), "done", FULL, 65_536)?;
    // The same without its last four bytes: the request is cut.
    let cut = stream.as_slice().get(..1_048_619).ok_or("short")?;
    check(&rt, rt.alloc(), cut, "cut", "", 65_536)
}
