//! A changeset as a landing's payload tells it.
ghost use Rattle.std.specs.Prelude.{◌≡◌, ◌<◌, ◌^◌, length, IfOk, IfErr};
ghost use Rattle.std.specs.Result.{result_ok};
ghost use Rattle.byte_fields.specs.declared.field_fault.FieldFault.TheVariants.{Memory};
ghost use Rattle.changeset_model.specs.Changeset.{spelling};
ghost use Rattle.changeset_model.specs.Decoding.{decoded};

use bonsai::{Changeset, DecodeFault, decode};
use byte_fields::FieldFault;
use std::alloc::Global;
use std::marker::Model;

/// A changeset that was read, with the length of its spelling. It has no id, so that reading it hashes nothing. Contracts
/// see the changeset, which the length follows from.
#[derive(Debug, Drop)]
pub struct Spelled {
    encoded_length: usize,
    changeset: Changeset,
}

impl Model for Spelled {
    ghost use Rattle.std.specs.Prelude.{◌≡◌, ◌≤◌, length};
    ghost use Rattle.changeset_model.specs.Changeset as model;
    ghost use Rattle.changeset_model.specs.Codes.{coded_changeset};

    ghost Value = { model.Changeset };

    ghost coded = { coded_changeset };

    ghost view = { λ c. c.changeset };

    ghost invariant = { λ c. (c.encoded_length ≡ length (model.spelling c.changeset)) × (c.encoded_length ≤ model.most_encoded) };
}

impl Spelled {
    /// The changeset that bytes spell, if they spell one.
    pub(crate) fn read(alloc: Global, bytes: &[u8]) -> Result<Option<Spelled>, FieldFault>
        ensures changeset { IfOk result (λ changeset. changeset ≡ result_ok (decoded bytes.now)) }
        ensures memory { IfErr result (λ e. e ≡ Memory) }
    {
        match decode(alloc, bytes) {
            Ok(changeset) => Ok(Some(Spelled {
                encoded_length: bytes.len(),
                changeset,
            })),
            Err(DecodeFault::Memory) => Err(FieldFault::Memory),
            Err(DecodeFault::TooLong { length: _ }) => Ok(None),
            Err(DecodeFault::BadEncoding { at: _ }) => Ok(None),
            Err(DecodeFault::SelfConflict { short: _, long: _ }) => Ok(None),
        }
    }

    /// The length of the encoding in bytes.
    pub fn encoded_length(&self) -> usize
        ensures value { result ≡ length (spelling self.now) }
        ensures short { result < 2 ^ 26 }
    {
        self.encoded_length
    }

    /// The changeset.
    pub fn changeset(&self) -> &Changeset
        ensures { result.now ≡ self.now }
    {
        &self.changeset
    }
}
