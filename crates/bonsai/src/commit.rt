//! A changeset with its id.
ghost use Rattle.std.specs.Prelude.{◌≡◌, ℕ, ◌<◌, ◌^◌, ◌++◌, length, IfOk, OnOk, IsTrue};
ghost use Rattle.byte_fields.specs.Bytes.{Id as ModelId, is_bytes};
ghost use Rattle.changeset_model.specs.Changeset as model;
ghost use Rattle.changeset_model.specs.Decoding.{decoded};
ghost use Rattle.history_model.specs.Pushrebase.{on_parent};
ghost use Rattle.bonsai.specs.Decodes.{Decodes};

use crate::changeset::Changeset;
use crate::decode_fault::DecodeFault;
use crate::decoding::decode;
use crate::encoding::{encode, encode_into};
use object_id::Id;
use std::alloc::{AllocError, Global};
use std::marker::Model;

// The bytes of a parent's id.
const ID_LENGTH: usize = 32;

/// A changeset with its id and the length of its spelling, so that neither is worked out again. Contracts see the
/// changeset, which both follow from.
#[derive(Debug, Drop)]
pub struct Commit {
    id: Id,
    encoded_length: usize,
    changeset: Changeset,
}

impl Model for Commit {
    ghost use Rattle.std.specs.Prelude.{◌≡◌, length};
    ghost use Rattle.changeset_model.specs.Changeset as model;
    ghost use Rattle.changeset_model.specs.Codes.{coded_changeset};

    ghost Value = { model.Changeset };

    ghost coded = { coded_changeset };

    ghost view = { λ c. c.changeset };

    ghost invariant = { λ c. (c.id ≡ model.id_of c.changeset) × (c.encoded_length ≡ length (model.spelling c.changeset)) };
}

impl Commit {
    /// The changeset that bytes spell. The bytes are hashed once.
    pub fn decode(alloc: Global, bytes: &[u8]) -> Result<Commit, DecodeFault>
        ensures { Decodes result (decoded bytes.now) }
    {
        let changeset = decode(alloc, bytes)?;
        Ok(Commit {
            id: Id::of(bytes),
            encoded_length: bytes.len(),
            changeset,
        })
    }

    /// A changeset that was made and not read.
    pub fn of(alloc: Global, changeset: Changeset) -> Result<Commit, AllocError>
        ensures { IfOk result (λ c. c ≡ changeset) }
    {
        let bytes = encode(alloc, &changeset)?;
        Ok(Commit {
            id: Id::of(bytes.as_slice()),
            encoded_length: bytes.len(),
            changeset,
        })
    }

    /// A changeset that was made and not read, whose encoding is put behind other bytes. It is hashed where it stands, so
    /// it is encoded once, and it fails only for want of memory.
    pub fn encode_behind(out: &mut Vec<u8>, changeset: Changeset) -> Result<Commit, AllocError>
        ensures commit { IfOk result (λ c. c ≡ changeset) }
        ensures bytes { OnOk result (out.new.items ≡ out.old.items ++ model.spelling changeset) }
    {
        let start = out.len();
        encode_into(out, &changeset)?;
        let spelling = &out[start..];
        Ok(Commit {
            id: Id::of(spelling),
            encoded_length: spelling.len(),
            changeset,
        })
    }

    /// The id: the SHA-256 (FIPS 180-4) of the spelling.
    pub fn id(&self) -> Id
        ensures { result ≡ model.id_of self.now }
    {
        self.id
    }

    /// The length of the encoding in bytes.
    pub fn encoded_length(&self) -> usize
        ensures value { result ≡ length (model.spelling self.now) }
        ensures short { result < 2 ^ 26 }
    {
        // The changeset keeps its rules, and so is short.
        let _edits = self.changeset.edits();
        self.encoded_length
    }

    /// The length in bytes that the encoding has once the changeset has one parent, whichever it is, at any moment.
    pub fn length_on_parent(&self) -> usize
        ensures value { (parent : ModelId) (moment : ℕ) → IsTrue (is_bytes 32 parent) → result ≡ length (model.spelling (on_parent parent moment self.now)) }
        ensures short { result < 2 ^ 27 }
    {
        self.encoded_length() + ID_LENGTH - self.changeset.parents().len() * ID_LENGTH
    }

    /// The changeset without its id.
    pub fn changeset(&self) -> &Changeset
        ensures { result.now ≡ self.now }
    {
        &self.changeset
    }
}
