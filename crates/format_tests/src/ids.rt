//! Ids and their hex text. The ids are those of FIPS 180-4's examples.
use crate::samples::ABC;
use object_id::{BadHex, Hasher, Id};
use std::alloc::Global;

const NOTHING: &str = "e3b0c44298fc1c149afbf4c8996fb92427ae41e4649b934ca495991b7852b855";

// Texts that are no id, and where they go wrong.
const BAD_TEXTS: [(&str, usize); 7] = [
    ("", 0),
    ("ba78", 4),
    (
        "ba7816bf8f01cfea414140de5dae2223b00361a396177a9cb410ff61f20015a",
        63,
    ),
    (
        "ba7816bf8f01cfea414140de5dae2223b00361a396177a9cb410ff61f20015adb",
        64,
    ),
    (
        "ba7816bf8f01cfea414140de5dae2223b00361a396177a9cb410ff61f20015adg",
        64,
    ),
    (
        "bA7816bf8f01cfea414140dE5dae2223g00361a396177a9cb410ff61f20015ad",
        32,
    ),
    ("g", 0),
];

fn is_written(alloc: Global, bytes: &[u8], text: &str) -> bool {
    let id = Id::of(bytes);
    let mut written = [0; 64];
    id.write_hex(&mut written);
    written.as_slice() == text.as_bytes() && id.to_hex(alloc).is_ok_and(|hex| hex.as_str() == text)
}

fn is_of_pieces(first: &[u8], second: &[u8], text: &str) -> bool {
    let mut hasher = Hasher::new();
    hasher.feed(first);
    hasher.feed(second);
    Id::from_hex(text) == Ok(hasher.id())
}

fn is_read(text: &str, bytes: &[u8]) -> bool {
    Id::from_hex(text) == Ok(Id::of(bytes))
}

fn place(text: &str) -> Option<usize> {
    match Id::from_hex(text) {
        Ok(_) => None,
        Err(BadHex { at }) => Some(at),
    }
}

#[test]
fn contents_have_the_ids_of_the_standard(rt: HostRuntime) {
    assert!(rt; is_written(rt.alloc(), b"abc", ABC));
    assert!(rt; is_written(rt.alloc(), b"", NOTHING));
    assert!(rt; is_of_pieces(b"a", b"bc", ABC));
}

#[test]
fn digits_of_both_cases_are_read(rt: HostRuntime) {
    assert!(rt; is_read(ABC, b"abc"));
    assert!(rt;
        is_read(
            "BA7816BF8F01CFEA414140DE5DAE2223B00361A396177A9CB410FF61F20015AD",
            b"abc"
        )
    );
}

#[test]
fn texts_that_are_no_id_are_refused_at_a_place(rt: HostRuntime) {
    for (text, at) in BAD_TEXTS {
        assert_eq!(rt; place(text), Some(at), "{text}");
    }
}
