//! Changesets, read of bytes.
ghost use Rattle.std.specs.Prelude.{◌≡◌, ◌≤◌, ◌-◌, length, None, Ok, IfOk, IsTrue};
ghost use Rattle.byte_fields.specs.Reading.{read};
ghost use Rattle.changeset_model.specs.Changeset.{Changeset as ModelChangeset, Spells, is_changeset, most_encoded, self_conflict};
ghost use Rattle.changeset_model.specs.Decoding.{changeset as changeset_reader, decoded, in_order};
ghost use Rattle.bonsai.specs.Decodes.{Decodes, DecodesFields};
ghost use Rattle.bonsai.specs.View.{fields_view};

use crate::changeset::Changeset;
use crate::decode_fault::DecodeFault;
use crate::fields::{Fields, fields_at};
use crate::limits::LONGEST_ENCODING;
use byte_fields::FieldFault;
use std::alloc::Global;

/// The changeset that bytes encode.
pub fn decode(alloc: Global, bytes: &[u8]) -> Result<Changeset, DecodeFault>
    ensures exact { Decodes result (decoded bytes.now) }
    // What is read is encoded so, and has no self-conflict.
    ensures accepted { IfOk result (λ c. (length bytes.now ≤ most_encoded) × Spells c bytes.now × (self_conflict c ≡ None)) }
    // What is encoded so is read, unless memory runs out.
    ensures again { (c : ModelChangeset) → length bytes.now ≤ most_encoded → Spells c bytes.now → self_conflict c ≡ None → Decodes result (Ok c) }
{
    decode_short(alloc, bytes)
}

// The changeset that bytes encode, if they are few enough.
fn decode_short(alloc: Global, bytes: &[u8]) -> Result<Changeset, DecodeFault>
    ensures { Decodes result (decoded bytes.now) }
{
    if bytes.len() > LONGEST_ENCODING {
        return Err(DecodeFault::TooLong {
            length: bytes.len(),
        });
    }
    let fields = all_of(alloc, bytes)?;
    apart(alloc, fields)
}

// The fields that all of the bytes encode, whether or not they have a self-conflict.
fn all_of(alloc: Global, bytes: &[u8]) -> Result<Fields, DecodeFault>
    ensures exact { DecodesFields result (read changeset_reader bytes.now) }
    ensures rules { IfOk result (λ f. IsTrue (is_changeset (fields_view f))) }
{
    match fields_at(alloc, bytes) {
        Ok((fields, [])) => Ok(fields),
        Ok((_, rest)) => Err(bad_encoding(bytes, rest.len())),
        Err(FieldFault::Bad { left }) => Err(bad_encoding(bytes, left)),
        Err(FieldFault::Memory) => Err(DecodeFault::Memory),
    }
}

// A changeset of these fields, if no path that they set lies under another.
fn apart(alloc: Global, fields: Fields) -> Result<Changeset, DecodeFault>
    requires { IsTrue (is_changeset (fields_view fields)) }
    ensures { Decodes result (in_order (Ok (fields_view fields))) }
{
    if let Some(conflict) = fields.self_conflict() {
        let short = conflict.short.copy(alloc)?;
        let long = conflict.long.copy(alloc)?;
        return Err(DecodeFault::SelfConflict { short, long });
    }
    Ok(Changeset::of_fields(alloc, fields)?)
}

// The fault at a field before which all but these bytes were read.
fn bad_encoding(bytes: &[u8], left: usize) -> DecodeFault
    ensures { result ≡ DecodeFault.BadEncoding (length bytes.now - left) }
{
    DecodeFault::BadEncoding {
        at: bytes.len().saturating_sub(left),
    }
}
