//! Parts by a number that their bytes give.
ghost use Rattle.std.specs.Prelude.{◌≡◌, IfOk};

use crate::part::Part;
use std::alloc::{AllocError, Global};
use std::collections::BTreeMap;

/// The parts that there are, of which those with the same bytes are shared.
#[derive(Debug, Drop)]
pub struct PartPool {
    parts: BTreeMap<u64, Part>,
}

impl PartPool {
    /// A pool with nothing in it.
    pub fn new(alloc: Global) -> PartPool {
        PartPool {
            parts: BTreeMap::new(alloc),
        }
    }

    /// A part with these bytes: the one that is there, or else a copy, which later ones share. Where other bytes give the
    /// same number, it stays out of the pool.
    pub fn part(&mut self, alloc: Global, bytes: &[u8]) -> Result<Part, AllocError>
        ensures { IfOk result (λ part. part ≡ bytes.now) }
    {
        let key = number_of(bytes);
        match self.parts.get(&key) {
            Some(found) if found.bytes() == bytes => found.share(),
            Some(_) => Part::of(alloc, bytes),
            None => self.add(alloc, key, bytes),
        }
    }

    fn add(&mut self, alloc: Global, key: u64, bytes: &[u8]) -> Result<Part, AllocError>
        ensures { IfOk result (λ part. part ≡ bytes.now) }
    {
        let part = Part::of(alloc, bytes)?;
        self.parts.insert(key, part.share()?)?;
        Ok(part)
    }
}

// A number for some bytes, cheap and spread well: equal bytes have the same.
fn number_of(bytes: &[u8]) -> u64 {
    let mut number = MIXER;
    let mut left = bytes;
    while let [a, b, c, d, e, f, g, h, rest @ ..] = left {
        number = mixed(number, u64::from_le_bytes([*a, *b, *c, *d, *e, *f, *g, *h]));
        left = rest;
    }
    for byte in left {
        number = mixed(number, u64::from(*byte));
    }
    number
}

// An odd number without a pattern in its bits.
const MIXER: u64 = 0x9e37_79b9_7f4a_7c15;

/// A number that depends on all bits of two.
pub(crate) fn mixed(number: u64, word: u64) -> u64 {
    (number.rotate_left(23) ^ word).wrapping_mul(MIXER)
}
