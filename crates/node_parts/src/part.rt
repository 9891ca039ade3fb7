//! Bytes that several owners share.
ghost use Rattle.std.specs.Prelude.{◌≡◌, ◌↔◌, ◌++◌, IsTrue, IfOk, OnOk};
ghost use Rattle.node_parts.specs.Parts.{joined};

use std::alloc::{AllocError, Global};
use std::marker::Model;
use std::sync::Arc;

/// Some of the bytes of a node, which other nodes may have too. Contracts see the list of the bytes.
#[derive(Debug, Drop)]
pub struct Part {
    bytes: Arc<Vec<u8>, Global>,
}

impl Model for Part {
    ghost use Rattle.std.specs.Prelude.{ℕ, List};
    ghost use Rattle.std.specs.Arc.{arc_value};
    ghost use Rattle.std.specs.Coded.{coded_ℕ, coded_list};

    ghost Value = { List ℕ };

    ghost coded = { coded_list coded_ℕ };

    ghost view = { λ p. (arc_value p.bytes).items };
}

impl Part {
    /// A part with a copy of these bytes.
    pub fn of(alloc: Global, bytes: &[u8]) -> Result<Part, AllocError>
        ensures { IfOk result (λ part. part ≡ bytes.now) }
    {
        let copy = Vec::from_slice(alloc, bytes)?;
        match Arc::new(alloc, copy) {
            Ok(bytes) => Ok(Part { bytes }),
            Err(_) => Err(AllocError),
        }
    }

    /// One more owner of the same bytes.
    pub fn share(&self) -> Result<Part, AllocError>
        ensures { IfOk result (λ part. part ≡ self.now) }
    {
        let bytes = Arc::try_clone(&self.bytes)?;
        Ok(Part { bytes })
    }

    /// The bytes.
    pub fn bytes(&self) -> &[u8]
        ensures { result.now ≡ self.now }
    {
        self.bytes.as_slice()
    }
}

/// How many bytes parts have together, at most the greatest number.
pub fn parts_len(parts: &[Part]) -> usize {
    let mut len = 0usize;
    for part in parts {
        len = len.saturating_add(part.bytes().len());
    }
    len
}

/// Adds the bytes of parts, one part after the other.
pub fn write_parts(parts: &[Part], out: &mut Vec<u8>) -> Result<(), AllocError>
    ensures { OnOk result (out.new.items ≡ out.old.items ++ joined parts.now) }
{
    for part in parts {
        out.extend_from_slice(part.bytes())?;
    }
    Ok(())
}

/// Whether parts, one after the other, are these bytes.
pub fn parts_are(parts: &[Part], bytes: &[u8]) -> bool
    ensures { IsTrue result ↔ (joined parts.now ≡ bytes.now) }
{
    let mut left = bytes;
    'comparing: for part in parts {
        let part = part.bytes();
        if left.len() < part.len() {
            return false;
        }
        let (here, rest) = left.split_at(part.len());
        if here != part {
            return false;
        }
        left = rest;
    }
    left.is_empty()
}
