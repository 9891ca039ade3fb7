//! Entries of a history, both ways.
ghost use Rattle.std.specs.Prelude.{◌≤◌, ◌<◌, ◌^◌, length};
ghost use Rattle.history_model.specs.History.{changesets_in};
ghost use Rattle.history_model.specs.Journal.{IsPayload};
ghost use Rattle.repo_events.specs.Entries.{body_of, parts_in};

use crate::bytes::{id_of_hex, of_hex};
use crate::samples::{
    ABC, CALLED, CHANGESET, CONTENT, COPY, COPY_ID, DATED, DATED_LANDING, DELETED, LANDING, MADE,
    MOVED, NEW, NO_HEADS, OLD, POLICY, WHOLE,
};
use object_id::Id;
use repo_events::{Body, FRAME, Landing, Move, Spelled, decode_payload, encode_entry};
use repo_path::BookName;
use std::alloc::Global;

// The entry that a payload stands for.
fn read(alloc: Global, payload: &str) -> Option<Body> {
    decode_payload(alloc, &of_hex(alloc, payload)).ok()
}

fn is_content(alloc: Global, payload: &str, wanted: Id, wanted_length: u64) -> bool {
    let body = read(alloc, payload);
    match &body {
        Some(Body::Content { id, length }) => *id == wanted && *length == wanted_length,
        Some(_) | None => false,
    }
}

fn is_changeset(alloc: Global, payload: &str, wanted: &str) -> bool {
    let body = read(alloc, payload);
    match &body {
        Some(Body::Change(commit)) => commit.id() == id_of_hex(wanted),
        Some(_) | None => false,
    }
}

fn moves(book: &Move, from: Option<Id>, to: Option<Id>) -> bool {
    book.name.as_str() == "main" && book.from == from && book.to == to
}

fn is_by_alice(caller: Option<&BookName>) -> bool {
    match caller {
        Some(name) => name.as_str() == "alice",
        None => false,
    }
}

// Whether `alice` moves `main`, where no head was and none is.
fn is_called_move(alloc: Global, payload: &str) -> bool {
    let body = read(alloc, payload);
    match &body {
        Some(Body::Book(book)) => moves(book, None, None) && is_by_alice(book.caller.as_ref()),
        Some(_) | None => false,
    }
}

fn is_whole(alloc: Global, payload: &str, wanted: Id, wanted_parts: &[Id]) -> bool {
    let body = read(alloc, payload);
    match &body {
        Some(Body::Whole { id, length, parts }) => {
            *id == wanted && *length == 6 && parts.as_slice() == wanted_parts
        }
        Some(_) | None => false,
    }
}

fn is_policy(alloc: Global, payload: &str, wanted: &[u8]) -> bool {
    let body = read(alloc, payload);
    match &body {
        Some(Body::Policy { caller, text }) => {
            caller.as_str() == "alice" && text.as_slice() == wanted
        }
        Some(_) | None => false,
    }
}

// Whether it moves `main` between heads, of which an empty text is none.
fn is_move(alloc: Global, payload: &str, from: &str, to: &str) -> bool {
    let body = read(alloc, payload);
    match &body {
        Some(Body::Book(book)) => moves(book, head(from), head(to)),
        Some(_) | None => false,
    }
}

fn head(text: &str) -> Option<Id> {
    Id::from_hex(text).ok()
}

fn is_one(alloc: Global, commits: &[Spelled], wanted: Id) -> bool {
    match commits {
        [commit] => commit.changeset().id(alloc).ok() == Some(wanted),
        _ => false,
    }
}

fn lands(alloc: Global, landing: &Landing, old: Id, new: Id, moment: Option<u64>) -> bool {
    landing.name.as_str() == "main"
        && landing.old == old
        && landing.draft == new
        && is_one(alloc, &landing.new, new)
        && landing.moment == moment
        && landing.caller.is_none()
}

fn is_landing(alloc: Global, payload: &str, old: Id, new: Id, moment: Option<u64>) -> bool {
    let body = read(alloc, payload);
    match &body {
        Some(Body::Land(landing)) => lands(alloc, landing, old, new, moment),
        Some(_) | None => false,
    }
}

// The frame of an entry that has this payload.
fn frame_of(alloc: Global, body: &Body, bytes: &[u8]) -> Option<Vec<u8>>
    requires short { length bytes.now ≤ 1_000_000 }
    requires spelled { IsPayload (body_of body.now) bytes.now }
    requires counted { length (changesets_in (body_of body.now)) < 2 ^ 16 }
    requires parted { length (parts_in (body_of body.now)) < 2 ^ 16 }
{
    let content = match body {
        Body::Content { id: _, length: _ } => bytes.get(1..)?,
        Body::Whole { .. }
        | Body::Change(_)
        | Body::Book(_)
        | Body::Land(_)
        | Body::Policy { .. } => b"",
    };
    encode_entry(alloc, body, content).ok()
}

// The frame of the entry that a payload stands for.
fn frame(alloc: Global, bytes: &[u8]) -> Option<Vec<u8>> {
    if bytes.len() > 1_000_000 {
        return None;
    }
    let body = decode_payload(alloc, bytes).ok()?;
    frame_of(alloc, &body, bytes)
}

// Whether a frame of an entry has its length in front, the payload and a closed gate.
fn is_framed(alloc: Global, payload: &str, length: u8) -> bool {
    let bytes = of_hex(alloc, payload);
    let Some(frame) = frame(alloc, &bytes) else {
        return false;
    };
    let end = 4 + usize::from(length);
    frame.len() == usize::from(length) + FRAME
        && frame.get(..4) == Some([0, 0, 0, length].as_slice())
        && frame.get(4..end) == Some(bytes.as_slice())
        && frame.last() == Some(&0)
}

#[test]
fn contents_and_changesets_are_read(rt: HostRuntime) {
    let alloc = rt.alloc();
    assert!(rt; is_content(alloc, CONTENT, id_of_hex(ABC), 3));
    assert!(rt; is_content(alloc, "42", Id::of(b""), 0));
    assert!(rt; is_changeset(alloc, CHANGESET, OLD));
    assert!(rt; is_changeset(alloc, COPY, COPY_ID));
}

#[test]
fn moves_are_read(rt: HostRuntime) {
    for (payload, from, to) in [
        (NO_HEADS, "", ""),
        (MADE, "", OLD),
        (DELETED, OLD, ""),
        (MOVED, OLD, NEW),
    ] {
        assert!(rt; is_move(rt.alloc(), payload, from, to), "{payload}");
    }
}

#[test]
fn landings_are_read(rt: HostRuntime) {
    let (alloc, old) = (rt.alloc(), id_of_hex(OLD));
    assert!(rt; is_landing(alloc, LANDING, old, id_of_hex(NEW), None));
    assert!(rt;
        is_landing(
            alloc,
            DATED_LANDING,
            old,
            id_of_hex(DATED),
            Some(1_700_000_000)
        )
    );
}

#[test]
fn wholes_callers_and_policies_are_read(rt: HostRuntime) {
    let alloc = rt.alloc();
    let parts = [Id::of(b"abc"), Id::of(b"def")];
    assert!(rt; is_whole(alloc, WHOLE, Id::of(b"abcdef"), parts.as_slice()));
    assert!(rt; is_called_move(alloc, CALLED));
    assert!(rt; is_policy(alloc, POLICY, b"main alice\n"));
}

#[test]
fn entries_are_written_as_they_were_read(rt: HostRuntime) {
    for (payload, length) in [
        (CONTENT, 4),
        ("42", 1),
        (CHANGESET, 26),
        (NO_HEADS, 8),
        (MADE, 40),
        (DELETED, 40),
        (MOVED, 72),
        (LANDING, 179),
        (COPY, 108),
        (DATED_LANDING, 188),
        (WHOLE, 107),
        (CALLED, 15),
        (POLICY, 19),
    ] {
        assert!(rt; is_framed(rt.alloc(), payload, length), "{payload}");
    }
}
