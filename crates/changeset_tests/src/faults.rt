//! Where the faults of the bytes of changesets are.
use crate::bytes::{changed, last_start, of_hex};
use crate::samples::CHANGESET;
use bonsai::{DecodeFault, decode};
use std::alloc::{AllocError, Global};

// Where the fields of the changeset begin.
const FIELDS: [usize; 9] = [0, 1, 2, 3, 5, 6, 14, 18, 22];

// A place in it, the byte that is put there, and where the fault is.
const BAD_FIELDS: [(usize, u8, usize); 11] = [
    (0, 0x44, 0),
    (1, 0, 1),
    (1, 3, 1),
    (2, 3, 2),
    (4, 0, 3),
    (3, 5, 3),
    (5, 0x0A, 5),
    (5, 0, 5),
    (5, 0xFF, 5),
    (18, 1, 18),
    (22, 1, 22),
];

// The place of the fault.
fn place(alloc: Global, bytes: &[u8]) -> Option<usize> {
    match decode(alloc, bytes) {
        Err(DecodeFault::BadEncoding { at }) => Some(at),
        Ok(_) | Err(_) => None,
    }
}

fn place_in_front(alloc: Global, bytes: &[u8], len: usize) -> Option<usize> {
    place(alloc, bytes.get(..len)?)
}

fn place_in_changed(alloc: Global, bytes: &[u8], at: usize, byte: u8) -> Option<usize> {
    let bytes = changed(alloc, bytes, at, byte).ok()?;
    place(alloc, &bytes)
}

fn is_too_long(alloc: Global, bytes: &[u8]) -> bool {
    match decode(alloc, bytes) {
        Err(DecodeFault::TooLong { length }) => length == bytes.len(),
        Ok(_) | Err(_) => false,
    }
}

#[test]
fn bytes_that_are_cut_off(rt: HostRuntime) {
    let bytes = of_hex(rt.alloc(), CHANGESET);
    for len in 0..26 {
        let place = place_in_front(rt.alloc(), &bytes, len);
        assert_eq!(rt; place, Some(last_start(&FIELDS, len)), "at {len}");
    }
}

#[test]
fn fields_that_break_their_rule(rt: HostRuntime) {
    let bytes = of_hex(rt.alloc(), CHANGESET);
    for (at, byte, want) in BAD_FIELDS {
        let place = place_in_changed(rt.alloc(), &bytes, at, byte);
        assert_eq!(rt; place, Some(want), "{byte} at {at}");
    }
}

#[test]
fn a_byte_that_follows(rt: HostRuntime) -> Result<(), AllocError> {
    let mut bytes = of_hex(rt.alloc(), CHANGESET);
    bytes.push(0)?;
    assert_eq!(rt; place(rt.alloc(), &bytes), Some(26));
    Ok(())
}

#[test]
fn the_same_parent_twice(rt: HostRuntime) {
    let mut bytes = [7; 67];
    bytes[0] = 0x43;
    bytes[1] = 1;
    bytes[2] = 2;
    assert_eq!(rt; place(rt.alloc(), &bytes), Some(35));
}

#[test]
fn bytes_that_are_too_many(rt: HostRuntime) -> Result<(), AllocError> {
    let bytes = vec![in rt.alloc(); 0u8; 1_048_577]?;
    assert!(rt; is_too_long(rt.alloc(), &bytes));
    Ok(())
}
