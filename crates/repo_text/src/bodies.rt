//! The short bodies, written into room that was reserved. They take no memory.
ghost use Rattle.std.specs.Prelude.{◌≡◌, ◌+◌, ◌*◌, ◌≤◌, ◌++◌, [], length, vec_len, vec_capacity, codes, flat_map, map, ◌∷◌};
ghost use Rattle.std.specs.List.{join_with_byte};
ghost use Rattle.session_model.specs.Bodies.{coded, content_body, whole_body, bookmark_body, landed_body, policy_body, id_text, ids_text, maybe_id_text, name_text};
ghost use Rattle.repo_text.specs.Short.{body_text, coded_id, coded_place, bad_bytes, placed_body, IsShort};

use crate::response::put;
use itoa::Buffer;
use object_id::Id;
use repo_path::LONGEST_NAME;

/// Room for any of these bodies, in bytes.
pub const MOST_BODY: usize = 8192;

/// The most bytes of a code.
pub const MOST_CODE: usize = 64;

/// The most ids of a landing's body.
pub const MOST_LANDED: usize = 100;

/// Room for a place behind the other members of a body.
pub const PLACE_ROOM: usize = 27;

/// Room for an id in quotes, with its comma.
pub(crate) const ID_ROOM: usize = 67;

/// A body of JSON that tells of ids, at most `MOST_BODY` bytes: its code and the other members.
#[derive(Clone, Copy, Debug)]
pub enum Body<'a> {
    CodedId { code: &'a str, id: Id },
    /// A content that was stored, and its length in bytes.
    Content { id: Id, size: usize },
    /// Contents that were joined and stored, and their length in bytes together.
    Whole { id: Id, size: u64 },
    /// Where a bookmark stands, `None` where it is deleted.
    Bookmark { head: Option<Id>, name: &'a str },
    /// A landing: the head before, and the ids of the new changesets, of which the last is the head.
    Landed { old: Id, ids: &'a [Id] },
    /// A policy that was set, and its number in the log.
    Policy { number: u64 },
    /// The bytes of a content have another id.
    BadBytes { wanted: Id, found: Id },
}

pub(crate) fn put_id(out: &mut Vec<u8>, id: &Id)
    requires { vec_len out.old + 66 ≤ vec_capacity out.old }
    ensures items { out.new.items ≡ out.old.items ++ id_text id.now }
    ensures short { vec_len out.new ≤ vec_len out.old + 66 }
    ensures room { vec_capacity out.old ≤ vec_capacity out.new }
{
    let mut hex = [0; 64];
    id.write_hex(&mut hex);
    put(out, b"\"");
    put(out, hex.as_slice());
    put(out, b"\"");
}

pub(crate) fn put_maybe_id(out: &mut Vec<u8>, id: Option<Id>)
    requires { vec_len out.old + 66 ≤ vec_capacity out.old }
    ensures items { out.new.items ≡ out.old.items ++ maybe_id_text id }
    ensures short { vec_len out.new ≤ vec_len out.old + 66 }
    ensures room { vec_capacity out.old ≤ vec_capacity out.new }
{
    match id {
        None => put(out, b"null"),
        Some(id) => put_id(out, &id),
    }
}

// Each id behind a comma.
fn put_later_ids(out: &mut Vec<u8>, ids: &[Id])
    requires { vec_len out.old + ID_ROOM * length ids.now ≤ vec_capacity out.old }
    ensures items { out.new.items ≡ out.old.items ++ flat_map (λ x. codes "," ++ id_text x) ids.now }
    ensures short { vec_len out.new ≤ vec_len out.old + ID_ROOM * length ids.now }
    ensures room { vec_capacity out.old ≤ vec_capacity out.new }
{
    for id in ids {
        put(out, b",");
        put_id(out, id);
    }
}

// An id, and others behind it.
fn put_joined_ids(out: &mut Vec<u8>, first: &Id, later: &[Id])
    requires { vec_len out.old + ID_ROOM * (length later.now + 1) ≤ vec_capacity out.old }
    ensures items { out.new.items ≡ out.old.items ++ join_with_byte 0x2C (map id_text (first.now ∷ later.now)) }
    ensures short { vec_len out.new ≤ vec_len out.old + ID_ROOM * (length later.now + 1) }
    ensures room { vec_capacity out.old ≤ vec_capacity out.new }
{
    put_id(out, first);
    put_later_ids(out, later);
}

pub(crate) fn put_ids(out: &mut Vec<u8>, ids: &[Id])
    requires { vec_len out.old + ID_ROOM * length ids.now + 2 ≤ vec_capacity out.old }
    ensures items { out.new.items ≡ out.old.items ++ ids_text ids.now }
    ensures short { vec_len out.new ≤ vec_len out.old + ID_ROOM * length ids.now + 2 }
    ensures room { vec_capacity out.old ≤ vec_capacity out.new }
{
    put(out, b"[");
    match ids.split_first() {
        Some((first, later)) => put_joined_ids(out, first, later),
        None => {}
    }
    put(out, b"]");
}

/// Adds a body that is its code alone: 11 bytes more than the code has.
pub fn put_code_body(out: &mut Vec<u8>, code: &str)
    requires { vec_len out.old + length code.now + 11 ≤ vec_capacity out.old }
    ensures items { out.new.items ≡ out.old.items ++ coded code.now [] }
    ensures short { vec_len out.new ≤ vec_len out.old + length code.now + 11 }
    ensures room { vec_capacity out.old ≤ vec_capacity out.new }
{
    put(out, b"{\"code\":\"");
    put(out, code.as_bytes());
    put(out, b"\"}");
}

fn put_coded_id(out: &mut Vec<u8>, code: &str, id: &Id)
    requires { vec_len out.old + length code.now + 83 ≤ vec_capacity out.old }
    ensures items { out.new.items ≡ out.old.items ++ coded_id code.now id.now }
    ensures short { vec_len out.new ≤ vec_len out.old + length code.now + 83 }
    ensures room { vec_capacity out.old ≤ vec_capacity out.new }
{
    put(out, b"{\"code\":\"");
    put(out, code.as_bytes());
    put(out, b"\",\"id\":");
    put_id(out, id);
    put(out, b"}");
}

/// Adds a body of a code and a place in bytes: at most 64 bytes more than the code has.
pub fn put_place_body(out: &mut Vec<u8>, code: &str, at: u64)
    requires { vec_len out.old + length code.now + 64 ≤ vec_capacity out.old }
    ensures items { out.new.items ≡ out.old.items ++ coded_place code.now at }
    ensures short { vec_len out.new ≤ vec_len out.old + length code.now + 64 }
    ensures room { vec_capacity out.old ≤ vec_capacity out.new }
{
    let mut digits = Buffer::new();
    put(out, b"{\"code\":\"");
    put(out, code.as_bytes());
    put(out, b"\",\"place\":");
    put(out, digits.format(at).as_bytes());
    put(out, b"}");
}

// What answers a content that was stored.
fn put_content(out: &mut Vec<u8>, id: &Id, size: usize)
    requires { vec_len out.old + 192 ≤ vec_capacity out.old }
    ensures items { out.new.items ≡ out.old.items ++ content_body id.now size }
    ensures short { vec_len out.new ≤ vec_len out.old + 192 }
    ensures room { vec_capacity out.old ≤ vec_capacity out.new }
{
    let mut digits = Buffer::new();
    put(out, b"{\"code\":\"content\",\"id\":");
    put_id(out, id);
    put(out, b",\"size\":");
    put(out, digits.format(size).as_bytes());
    put(out, b"}");
}

// What answers contents that were joined.
fn put_whole(out: &mut Vec<u8>, id: &Id, size: u64)
    requires { vec_len out.old + 192 ≤ vec_capacity out.old }
    ensures items { out.new.items ≡ out.old.items ++ whole_body id.now size }
    ensures short { vec_len out.new ≤ vec_len out.old + 192 }
    ensures room { vec_capacity out.old ≤ vec_capacity out.new }
{
    let mut digits = Buffer::new();
    put(out, b"{\"code\":\"whole\",\"id\":");
    put_id(out, id);
    put(out, b",\"size\":");
    put(out, digits.format(size).as_bytes());
    put(out, b"}");
}

// What answers a policy that was set.
fn put_policy(out: &mut Vec<u8>, number: u64)
    requires { vec_len out.old + 64 ≤ vec_capacity out.old }
    ensures items { out.new.items ≡ out.old.items ++ policy_body number }
    ensures short { vec_len out.new ≤ vec_len out.old + 64 }
    ensures room { vec_capacity out.old ≤ vec_capacity out.new }
{
    let mut digits = Buffer::new();
    put(out, b"{\"code\":\"policy\",\"number\":");
    put(out, digits.format(number).as_bytes());
    put(out, b"}");
}

// What tells where a bookmark stands.
fn put_bookmark(out: &mut Vec<u8>, head: Option<Id>, name: &str)
    requires short { length name.now ≤ LONGEST_NAME }
    requires room { vec_len out.old + 256 ≤ vec_capacity out.old }
    ensures items { out.new.items ≡ out.old.items ++ bookmark_body head name.now }
    ensures short { vec_len out.new ≤ vec_len out.old + 256 }
    ensures room { vec_capacity out.old ≤ vec_capacity out.new }
{
    put(out, b"{\"code\":\"bookmark\",\"head\":");
    put_maybe_id(out, head);
    put(out, b",\"name\":\"");
    put(out, name.as_bytes());
    put(out, b"\"}");
}

// What answers a landing.
fn put_landed(out: &mut Vec<u8>, old: &Id, ids: &[Id])
    requires few { length ids.now ≤ MOST_LANDED }
    requires room { vec_len out.old + MOST_BODY ≤ vec_capacity out.old }
    ensures items { out.new.items ≡ out.old.items ++ landed_body old.now ids.now }
    ensures short { vec_len out.new ≤ vec_len out.old + MOST_BODY }
    ensures room { vec_capacity out.old ≤ vec_capacity out.new }
{
    put(out, b"{\"code\":\"landed\",\"head\":");
    put_maybe_id(out, ids.last().copied());
    put(out, b",\"ids\":");
    put_ids(out, ids);
    put(out, b",\"old\":");
    put_id(out, old);
    put(out, b"}");
}

fn put_bad_bytes(out: &mut Vec<u8>, wanted: &Id, found: &Id)
    requires { vec_len out.old + 192 ≤ vec_capacity out.old }
    ensures items { out.new.items ≡ out.old.items ++ bad_bytes wanted.now found.now }
    ensures short { vec_len out.new ≤ vec_len out.old + 192 }
    ensures room { vec_capacity out.old ≤ vec_capacity out.new }
{
    put(out, b"{\"code\":\"bad-bytes\",\"found\":");
    put_id(out, found);
    put(out, b",\"wanted\":");
    put_id(out, wanted);
    put(out, b"}");
}

/// Adds a body, of at most `MOST_BODY` bytes.
pub fn put_body(out: &mut Vec<u8>, body: &Body<'_>)
    requires short { IsShort body.now }
    requires room { vec_len out.old + MOST_BODY ≤ vec_capacity out.old }
    ensures items { out.new.items ≡ out.old.items ++ body_text body.now }
    ensures short { vec_len out.new ≤ vec_len out.old + MOST_BODY }
    ensures room { vec_capacity out.old ≤ vec_capacity out.new }
{
    match body {
        Body::CodedId { code, id } => put_coded_id(out, code, id),
        Body::Content { id, size } => put_content(out, id, *size),
        Body::Whole { id, size } => put_whole(out, id, *size),
        Body::Bookmark { head, name } => put_bookmark(out, *head, name),
        Body::Landed { old, ids } => put_landed(out, old, ids),
        Body::Policy { number } => put_policy(out, *number),
        Body::BadBytes { wanted, found } => put_bad_bytes(out, wanted, found),
    }
}

/// Adds a place behind the other members of a body, whose last byte closes it.
pub fn add_place(body: &mut Vec<u8>, at: usize)
    requires { vec_len body.old + PLACE_ROOM ≤ vec_capacity body.old }
    ensures items { body.new.items ≡ placed_body at body.old.items }
    ensures short { vec_len body.new ≤ vec_len body.old + PLACE_ROOM }
    ensures room { vec_capacity body.old ≤ vec_capacity body.new }
{
    let mut digits = Buffer::new();
    body.pop();
    put(body, b",\"at\":");
    put(body, digits.format(at).as_bytes());
    put(body, b"}");
}
