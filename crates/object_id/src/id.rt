//! An id and its hex text.
ghost use Rattle.std.specs.Prelude.{◌≡◌, ◌∷◌, [], not, length, take, position, Some, None, Ok, IfOk, IfErr, IsTrue, string_bytes};
ghost use Rattle.std.specs.Char.{is_ascii_hexdigit};
ghost use Rattle.std.specs.Cmp.Lexicographic.{same_text};
ghost use mathlib.Core.Path.{sym};
ghost use Rattle.sha2.specs.Sha256.{sha256};
ghost use Rattle.byte_fields.specs.Bytes.{is_bytes};
ghost use Rattle.hex.specs.Hex.{decode_of, encode_lower};
ghost use Rattle.object_id.specs.Hex.{hex_fault};

use hex::FromHex;
use sha2::{Digest, Sha256};
use std::alloc::{AllocError, Global};
use std::hash::{Hash, Hasher};
use std::marker::Model;
use thiserror::Error;

/// The length of an id's hex text in bytes.
pub const HEX_LENGTH: usize = 64;

// How many of an id's bytes tables are hashed by.
const HASHED: usize = 8;

/// A text that is no id in hex.
#[derive(Clone, Copy, Debug, PartialEq, Eq, Error)]
#[error("no 64 hex digits: wrong at byte {at}")]
pub struct BadHex {
    /// The place of the first byte among the first 64 that is no hex digit; else the text's length where it is
    /// shorter, and 64 where it is longer.
    pub at: usize,
}

/// The SHA-256 (FIPS 180-4) of some bytes. Contracts see the list of its 32 bytes.
#[derive(Clone, Copy, Debug, PartialEq, Eq, PartialOrd, Ord)]
pub struct Id([u8; 32]);

impl Model for Id {
    ghost use Rattle.std.specs.Prelude.{ℕ, List};

    ghost Value = { List ℕ };

    ghost view = { λ id. id.0 };

    ghost inverse = { λ bytes. record { 0 = bytes } };
}

/// The first eight bytes stand for all: whoever wants ids that agree there has to look for them among 2^64 digests.
impl Hash for Id {
    ghost hash_input = { λ id. take 8 id ∷ [] };

    ghost respects_eq = { λ x y e i. take 8 (same_text x y (sym e) i) ∷ [] };

    fn hash<H: Hasher>(&self, state: &mut H) {
        state.write(&self.0[..HASHED]);
    }
}

impl Id {
    /// The id of these bytes.
    pub fn of(bytes: &[u8]) -> Id
        ensures { result ≡ sha256 bytes.now }
    {
        Id(Sha256::digest(bytes))
    }

    /// The id with these bytes.
    pub fn from_bytes(bytes: [u8; 32]) -> Id
        ensures { result ≡ bytes }
    {
        Id(bytes)
    }

    /// The 32 bytes.
    pub fn as_bytes(&self) -> &[u8; 32]
        ensures value { result.now ≡ self.now }
        ensures rule { IsTrue (is_bytes 32 self.now) }
    {
        keep_the_rule(self.0.as_slice());
        &self.0
    }

    /// Reads 64 hex digits, of either case.
    pub fn from_hex(text: &str) -> Result<Id, BadHex>
        ensures ok { IfOk result (λ id. (hex_fault text.now ≡ None) × (decode_of text.now ≡ Ok id)) }
        ensures err { IfErr result (λ bad. hex_fault text.now ≡ Some bad.at) }
    {
        if let Some(at) = hex_fault_of(text.as_bytes()) {
            return Err(BadHex { at });
        }
        match <[u8; 32] as FromHex>::from_hex(text) {
            Ok(bytes) => Ok(Id(bytes)),
            Err(_) => unreachable!(),
        }
    }

    /// Writes the id as 64 hex digits in lower case.
    pub fn write_hex(&self, out: &mut [u8; 64])
        ensures { out.new ≡ encode_lower self.now }
    {
        hex::encode_to_slice(self.0.as_slice(), out).unwrap();
    }

    /// The id as 64 hex digits in lower case.
    pub fn to_hex(&self, alloc: Global) -> Result<String, AllocError>
        ensures { IfOk result (λ text. string_bytes text ≡ encode_lower self.now) }
    {
        hex::encode(alloc, self.0.as_slice())
    }
}

// 32 bytes keep the rule of an id.
fn keep_the_rule(bytes: &[u8])
    requires { length bytes.now ≡ 32 }
    ensures { IsTrue (is_bytes 32 bytes.now) }
{}

// The first byte that is no hex digit.
fn first_bad(text: &[u8]) -> Option<usize>
    ensures { result ≡ position (λ c. not (is_ascii_hexdigit c)) text.now }
{
    text.iter().position(|c| !c.is_ascii_hexdigit())
}

// Where a text is no id in hex.
fn hex_fault_of(text: &[u8]) -> Option<usize>
    ensures { result ≡ hex_fault text.now }
{
    let len = text.len().min(HEX_LENGTH);
    match first_bad(&text[..len]) {
        Some(at) => Some(at),
        None if text.len() == HEX_LENGTH => None,
        None => Some(len),
    }
}
