//! Sessions by rows: a request, the status, the body of the response, and a header field more, where there is one. `ABC`
//! and `NIL` are the ids of `abc` and of nothing.
use crate::ticking::Ticking;
use crate::told::Told;
use http_front::ended::Ended;
use http_front::session::serve_session;
use object_id::Id;
use ports::{Clock, MemLink};
use std::alloc::Global;
use std::test::Fail;

/// By SHA-256 (FIPS 180-4).
const ABC: &str = "ba7816bf8f01cfea414140de5dae2223b00361a396177a9cb410ff61f20015ad";

const NIL: &str = "e3b0c44298fc1c149afbf4c8996fb92427ae41e4649b934ca495991b7852b855";

const ROWS: &str =
    r#"GET /content/ABC | 500 Internal Server Error | {"code":"bad-bytes","found":"NIL","wanted":"ABC"}
PUT /content | 503 Service Unavailable | {"code":"memory"}
POST /land/main/ABC | 503 Service Unavailable | {"code":"memory"}
PUT /bookmark/main/none/ABC | 503 Service Unavailable | {"code":"memory"}
POST /land/main/x | 400 Bad Request | {"code":"bad-id","place":0}
GET /land/main/ABC | 405 Method Not Allowed | {"code":"method"} | Allow: POST
POST /land/main/NIL | 503 Service Unavailable | {"code":"memory"}
GET /log/0 | 200 OK | {"code":"log","entries":[{"draft":"ABC","ids":[],"kind":"landing","name":"main","number":0,"old":"NIL"},{"draft":"ABC","ids":[],"kind":"landing","moment":1000,"name":"main","number":1,"old":"NIL"}],"total":2}
GET /fsnode/ABC | 200 OK | fsnode
GET /fsnode/ABC/a/b | 200 OK | fsnode a/b
GET /fsnode/ABC/%61%2Fb?c | 200 OK | fsnode a/b
GET /fsnode/NIL | 404 Not Found | {"code":"no-changeset","id":"NIL"}
GET /fsnode/ABC/none | 404 Not Found | {"code":"no-path"}
GET /fsnode/ABC/file | 404 Not Found | {"code":"not-a-dir"}
GET /fsnode/ABC/twice | 409 Conflict | {"code":"collision","id":"NIL"}
GET /fsnode/ABC/ | 404 Not Found | {"code":"no-route"}
GET /fsnode//a | 404 Not Found | {"code":"no-route"}
PUT /fsnode/ABC | 405 Method Not Allowed | {"code":"method"} | Allow: GET
POST /fsnode/ABC/a | 405 Method Not Allowed | {"code":"method"} | Allow: GET
GET /fsnode/ABC//a | 400 Bad Request | {"code":"bad-path","place":0}
GET /fsnode/ABC/a/ | 400 Bad Request | {"code":"bad-path","place":2}
GET /fsnode/ABC/a/%2e. | 400 Bad Request | {"code":"bad-path","place":2}
GET /fsnode/ABC/a/%ff | 400 Bad Request | {"code":"bad-path","place":0}
GET /fsnode/x/%ff | 400 Bad Request | {"code":"bad-id","place":0}
GET /unode/ABC | 200 OK | unode
GET /unode/ABC/a/b | 200 OK | unode a/b
GET /unode/ABC/none | 404 Not Found | {"code":"no-path"}
GET /history/ABC/a/b | 200 OK | {"code":"history","ids":["NIL","ABC"]}
GET /history/ABC/dir | 404 Not Found | {"code":"not-a-file"}
GET /history/ABC/unread | 500 Internal Server Error | {"code":"read-fault"}
GET /history/ABC | 404 Not Found | {"code":"no-route"}
PUT /history/ABC/a | 405 Method Not Allowed | {"code":"method"} | Allow: GET
GET /deleted/ABC | 200 OK | deleted
GET /deleted/ABC/a/b | 200 OK | deleted a/b
GET /deleted/ABC/none | 404 Not Found | {"code":"no-path"}
PUT /deleted/ABC | 405 Method Not Allowed | {"code":"method"} | Allow: GET
GET /pathlog/ABC/a/b | 200 OK | {"code":"path-log","ids":["NIL","ABC"]}
GET /pathlog/NIL/a | 404 Not Found | {"code":"no-changeset","id":"NIL"}
GET /pathlog/ABC//a | 400 Bad Request | {"code":"bad-path","place":0}
GET /pathlog/ABC | 404 Not Found | {"code":"no-route"}
PUT /pathlog/ABC/a | 405 Method Not Allowed | {"code":"method"} | Allow: GET
GET /policy | 200 OK | allow ann lib
GET /policy/7 | 404 Not Found | {"code":"no-policy"}
GET /policy/x | 400 Bad Request | {"code":"bad-number"}
PUT /policy | 503 Service Unavailable | {"code":"memory"}
POST /policy | 405 Method Not Allowed | {"code":"method"} | Allow: GET, PUT
PUT /policy/7 | 405 Method Not Allowed | {"code":"method"} | Allow: GET
PUT /whole | 500 Internal Server Error | {"code":"read-fault"}
PUT /whole | 500 Internal Server Error | {"code":"bad-bytes","found":"NIL","wanted":"ABC"}
GET /whole | 405 Method Not Allowed | {"code":"method"} | Allow: PUT
GET /copies/ABC | 200 OK | {"code":"copies","copies":[{"from":"p","parent":0,"to":"q"},{"from":"d/p","parent":1,"to":"r\"s"}]}
GET /copies/%42A7816bf8f01cfea414140de5dae2223b00361a396177a9cb410ff61f20015ad | 200 OK | {"code":"copies","copies":[{"from":"p","parent":0,"to":"q"},{"from":"d/p","parent":1,"to":"r\"s"}]}
GET /copies/NIL | 404 Not Found | {"code":"no-changeset","id":"NIL"}
GET /copies/x | 400 Bad Request | {"code":"bad-id","place":0}
GET /copies/ABC/a | 404 Not Found | {"code":"no-route"}
GET /copies | 404 Not Found | {"code":"no-route"}
PUT /copies/ABC | 405 Method Not Allowed | {"code":"method"} | Allow: GET"#;

// The first field of a row, and those after it.
fn cut(row: &str) -> (&str, &str) {
    row.split_once(" | ").unwrap_or((row, ""))
}

fn kind_of(body: &str) -> &'static str {
    if body.starts_with("{") {
        "json"
    } else {
        "octet-stream"
    }
}

fn put_request(alloc: Global, out: &mut String, request: &str) -> Result<(), Fail> {
    let text = format!(in alloc; "{request} HTTP/1.1\r\nContent-Length: 0\r\n\r\n")?;
    Ok(out.push_str(text.as_str())?)
}

fn put_response(
    alloc: Global,
    out: &mut String,
    status: &str,
    body: &str,
    field: &str,
) -> Result<(), Fail> {
    let kind = kind_of(body);
    let length = body.len();
    let end = if field.is_empty() { "" } else { "\r\n" };
    let text = format!(in alloc;
        "HTTP/1.1 {status}\r\nContent-Type: application/{kind}\r\nContent-Length: {length}\r\n{field}{end}\r\n{body}"
    )?;
    Ok(out.push_str(text.as_str())?)
}

fn put_row(
    alloc: Global,
    requests: &mut String,
    responses: &mut String,
    row: &str,
) -> Result<(), Fail> {
    let (request, rest) = cut(row);
    let (status, rest) = cut(rest);
    let (body, field) = cut(rest);
    put_request(alloc, requests, request)?;
    put_response(alloc, responses, status, body, field)
}

#[test]
fn rows_are_answered_in_one_session(rt: HostRuntime) -> Result<(), Fail> {
    let alloc = rt.alloc();
    let rows = ROWS.replace(alloc, "ABC", ABC)?;
    let rows = rows.replace(alloc, "NIL", NIL)?;
    let mut requests = String::new(alloc);
    let mut responses = String::new(alloc);
    for row in rows.lines() {
        put_row(alloc, &mut requests, &mut responses, row)?;
    }
    let mut seat = Told {
        known: Id::of(b"abc"),
        other: Id::of(b""),
        moments: Vec::new(alloc),
        unread: true,
    };
    let clock = Ticking::new();
    let mut link = MemLink::new(
        alloc,
        requests.into_bytes(),
        4096,
        65_536,
        Vec::new(alloc),
        Vec::new(alloc),
    )?;
    let end = serve_session(alloc, &mut seat, &mut link, &clock);
    assert_eq!(rt; end, Ended::Whole);
    assert_eq!(rt; link.written(), responses.as_bytes());
    // the clock is read for the two landings, and for nothing else
    assert_eq!(rt; seat.moments.as_slice(), [1_000, 1_001].as_slice());
    assert_eq!(rt; clock.now(), 1_002);
    Ok(())
}
