//! Replies of another server, and the pages of its log.
use httparse::spans::EMPTY_HEADER_SPAN;
use page_reader::read_page;
use reply_reader::{Front, HEADER_ROOM, read_reply};
use std::alloc::Global;
use std::test::Fail;

// A page of entries of each kind, with and without who made them.
const PAGE: &str =
    r#"{"code":"log","entries":[{"id":"ba7816bf8f01cfea414140de5dae2223b00361a396177a9cb410ff61f20015ad","kind":"content","number":0,"size":3},{"draft":"ba7816bf8f01cfea414140de5dae2223b00361a396177a9cb410ff61f20015ad","ids":["e3b0c44298fc1c149afbf4c8996fb92427ae41e4649b934ca495991b7852b855"],"kind":"landing","moment":1000,"name":"main","number":1,"old":"ba7816bf8f01cfea414140de5dae2223b00361a396177a9cb410ff61f20015ad"},{"from":null,"kind":"bookmark","name":"main","number":2,"to":"ba7816bf8f01cfea414140de5dae2223b00361a396177a9cb410ff61f20015ad"},{"caller":"ann","kind":"policy","number":3,"rules":2},{"id":"ba7816bf8f01cfea414140de5dae2223b00361a396177a9cb410ff61f20015ad","kind":"changeset","number":4},{"caller":"ann","draft":"ba7816bf8f01cfea414140de5dae2223b00361a396177a9cb410ff61f20015ad","ids":[],"kind":"landing","name":"main","number":5,"old":"ba7816bf8f01cfea414140de5dae2223b00361a396177a9cb410ff61f20015ad"},{"caller":"bob","from":"ba7816bf8f01cfea414140de5dae2223b00361a396177a9cb410ff61f20015ad","kind":"bookmark","name":"main","number":6,"to":null},{"id":"ba7816bf8f01cfea414140de5dae2223b00361a396177a9cb410ff61f20015ad","kind":"whole","number":7,"parts":["ba7816bf8f01cfea414140de5dae2223b00361a396177a9cb410ff61f20015ad","e3b0c44298fc1c149afbf4c8996fb92427ae41e4649b934ca495991b7852b855"],"size":3}],"total":8}"#;

// How many entries the page has that starts at this number, and its total.
fn page(alloc: Global, from: u64, text: &str) -> Option<(usize, u64)> {
    match read_page(alloc, from, text.as_bytes()) {
        Ok(page) => Some((page.entries.len(), page.total)),
        Err(_) => None,
    }
}

// What stands first, where a body has at most 10 bytes: a status and the lengths of a body and of what follows, or how
// it isn't a reply yet or at all.
fn front(alloc: Global, text: &str) -> Result<String, Fail> {
    let mut headers = vec![in alloc; EMPTY_HEADER_SPAN; HEADER_ROOM]?;
    match read_reply(text.as_bytes(), 10, headers.as_mut_slice()) {
        Front::Whole(reply) => {
            let (body, rest) = (reply.body.len(), reply.rest.len());
            Ok(format!(in alloc; "{} {body} {rest}", reply.status)?)
        }
        Front::Unfinished => Ok(String::from_str(alloc, "unfinished")?),
        Front::Bad(_) => Ok(String::from_str(alloc, "bad")?),
    }
}

#[test]
fn a_page_is_read_where_it_is_one(rt: HostRuntime) -> Result<(), Fail> {
    let alloc = rt.alloc();
    assert_eq!(rt; page(alloc, 0, PAGE), Some((8, 8)));
    assert_eq!(rt; page(alloc, 1, PAGE), None);
    assert_eq!(rt;
        page(alloc, 0, r#"{"code":"log","entries":[],"total":0}"#),
        Some((0, 0))
    );
    assert_eq!(rt;
        page(alloc, 0, r#"{"code":"log","entries":[],"total":1}"#),
        None
    );
    assert_eq!(rt;
        page(alloc, 0, r#"{"code":"log", "entries":[],"total":0}"#),
        None
    );
    assert_eq!(rt; page(alloc, 0, "[[[[[[[["), None);
    Ok(())
}

#[test]
fn a_reply_is_read_where_one_stands(rt: HostRuntime) -> Result<(), Fail> {
    let alloc = rt.alloc();
    let rows = [
        (
            "HTTP/1.1 200 OK\r\nContent-Type: application/json\r\nContent-Length: 3\r\n\r\nabcd",
            "200 3 1",
        ),
        (
            "HTTP/1.1 404 Not Found\r\ncontent-length: 0\r\nx: y\r\nContent-Type: application/octet-stream\r\n\r\n",
            "404 0 0",
        ),
        (
            "HTTP/1.1 200 OK\r\nContent-Type: application/json\r\nContent-Length: 3\r\n\r\nab",
            "unfinished",
        ),
        ("HTTP/1.1 200 OK\r\nContent-Length: 3\r\nx:", "unfinished"),
        (
            "HTTP/1.0 200 OK\r\nContent-Type: application/json\r\nContent-Length: 3\r\n\r\nabc",
            "bad",
        ),
        (
            "HTTP/1.1 200 OK\r\nContent-Type: application/json\r\nContent-Length: 11\r\n\r\nabc",
            "bad",
        ),
        ("GET / HTTP/1.1\r\n", "bad"),
    ];
    for (text, wanted) in rows {
        assert_eq!(rt; front(alloc, text)?.as_str(), wanted);
    }
    Ok(())
}
