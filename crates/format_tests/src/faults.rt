//! Where the faults of payloads of entries are.
use crate::bytes::{changed, last_start, letters, of_hex};
use crate::samples::{
    CALLED, CHANGESET, CONFLICT, CONTENT, COPY, DATED_LANDING, DELETED, LANDING, MADE, MOVED,
    NO_HEADS, POLICY, WHOLE,
};
use repo_events::{PayloadFault, decode_payload};
use std::alloc::{AllocError, Global};

// Where the fields of entries begin.
const FIELDS: [(&str, &[usize]); 10] = [
    (CHANGESET, &[0, 1]),
    (NO_HEADS, &[0, 1, 2, 6, 7]),
    (MADE, &[0, 1, 2, 6, 7]),
    (DELETED, &[0, 1, 2, 6, 39]),
    (MOVED, &[0, 1, 2, 6, 39]),
    (LANDING, &[0, 1, 2, 6, 38, 70, 72, 76]),
    (COPY, &[0, 1]),
    (DATED_LANDING, &[0, 1, 2, 6, 38, 70, 78, 80, 84]),
    (WHOLE, &[0, 1, 33, 41, 43, 75]),
    (CALLED, &[0, 1, 2, 7, 8, 9, 13, 14]),
];

// A payload, a place, the byte that is put there, and where the fault is.
const BAD_FIELDS: [(&str, usize, u8, u64); 23] = [
    (CONTENT, 0, 0x44, 0),
    (CHANGESET, 1, 3, 1),
    (CHANGESET, 1, 0, 1),
    (CONFLICT, 0, 0x43, 1),
    (NO_HEADS, 1, 0, 2),
    (NO_HEADS, 2, b' ', 2),
    (NO_HEADS, 2, 0xff, 2),
    (NO_HEADS, 6, 2, 6),
    (NO_HEADS, 7, 2, 7),
    (NO_HEADS, 7, 1, 7),
    (MADE, 7, 0, 8),
    (LANDING, 5, b'/', 2),
    (LANDING, 71, 0, 72),
    (LANDING, 71, 2, 179),
    (LANDING, 75, 0x66, 76),
    (LANDING, 75, 0x68, 76),
    (LANDING, 76, 0x44, 76),
    (DATED_LANDING, 79, 0, 80),
    (DATED_LANDING, 79, 2, 188),
    (WHOLE, 41, 1, 107),
    (CALLED, 1, 0, 2),
    (CALLED, 7, 0x42, 7),
    (POLICY, 7, 0x41, 7),
];

// The place of the fault.
fn place(alloc: Global, bytes: &[u8]) -> Option<u64> {
    match decode_payload(alloc, bytes) {
        Err(PayloadFault::BadPayload { at }) => Some(at),
        Ok(_) | Err(PayloadFault::Memory) => None,
    }
}

// The first length of a front whose fault is not where its last field begins.
fn wrong_front(alloc: Global, text: &str, starts: &[usize]) -> Option<usize> {
    let bytes = of_hex(alloc, text);
    for len in 0..bytes.len() {
        let front = bytes.get(..len)?;
        if place(alloc, front) != Some(last_start(starts, len) as u64) {
            return Some(len);
        }
    }
    None
}

fn changed_hex(alloc: Global, text: &str, at: usize, byte: u8) -> Option<Vec<u8>> {
    changed(alloc, &of_hex(alloc, text), at, byte).ok()
}

fn place_in_changed(alloc: Global, text: &str, at: usize, byte: u8) -> Option<u64> {
    let bytes = changed_hex(alloc, text, at, byte)?;
    place(alloc, &bytes)
}

fn place_with_one_more(alloc: Global, text: &str) -> Option<u64> {
    let mut bytes = of_hex(alloc, text);
    bytes.push(0).ok()?;
    place(alloc, &bytes)
}

// The place of the fault of a move under a name of so many letters.
fn place_of_long_name(alloc: Global, length: u8) -> Option<u64> {
    let mut bytes = Vec::from_slice(alloc, &[0x4d, length]).ok()?;
    let name = letters(alloc, usize::from(length)).ok()?;
    bytes.extend_from_slice(name.as_bytes()).ok()?;
    bytes.extend_from_slice(&[0, 0]).ok()?;
    place(alloc, &bytes)
}

#[test]
fn payloads_that_are_cut_off(rt: HostRuntime) {
    for (text, starts) in FIELDS {
        assert_eq!(rt; wrong_front(rt.alloc(), text, starts), None, "{text}");
    }
}

#[test]
fn fields_that_break_their_rule(rt: HostRuntime) {
    for (text, at, byte, want) in BAD_FIELDS {
        let place = place_in_changed(rt.alloc(), text, at, byte);
        assert_eq!(rt; place, Some(want), "{byte} at {at} of {text}");
    }
}

#[test]
fn bytes_that_follow(rt: HostRuntime) {
    for (text, length) in [
        (NO_HEADS, 8),
        (MOVED, 72),
        (LANDING, 179),
        (DATED_LANDING, 188),
        (WHOLE, 107),
        (CALLED, 15),
    ] {
        assert_eq!(rt;
            place_with_one_more(rt.alloc(), text),
            Some(length),
            "{text}"
        );
    }
}

#[test]
fn names_that_are_too_long(rt: HostRuntime) {
    assert_eq!(rt; place_of_long_name(rt.alloc(), 128), None);
    assert_eq!(rt; place_of_long_name(rt.alloc(), 129), Some(2));
}

#[test]
fn payloads_that_are_too_long(rt: HostRuntime) -> Result<(), AllocError> {
    let bytes = vec![in rt.alloc(); 0x42u8; 16_777_217]?;
    assert_eq!(rt; place(rt.alloc(), &bytes), Some(16_777_216));
    Ok(())
}
