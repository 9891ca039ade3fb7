//! Bytes that tests are made of.
use std::alloc::{AllocError, Global};

/// The bytes that hex digits stand for; none where they are no hex, or memory ran out.
pub(crate) fn of_hex(alloc: Global, text: &str) -> Vec<u8> {
    match hex::decode(alloc, text) {
        Ok(bytes) => bytes,
        Err(_) => Vec::new(alloc),
    }
}

/// The same bytes with another one at a place.
pub(crate) fn changed(
    alloc: Global,
    bytes: &[u8],
    place: usize,
    byte: u8,
) -> Result<Vec<u8>, AllocError> {
    let mut out = Vec::from_slice(alloc, bytes)?;
    if let Some(old) = out.get_mut(place) {
        *old = byte;
    }
    Ok(out)
}

/// The last of these starts of fields at or before a length.
pub(crate) fn last_start(starts: &[usize], len: usize) -> usize {
    let mut last = 0;
    for start in starts {
        if *start <= len {
            last = *start;
        }
    }
    last
}
