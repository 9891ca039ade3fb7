//! One field at a time: its value and the bytes after it. Numbers stand high byte first.
ghost use Rattle.std.specs.Prelude.{◌≡◌, ◌<◌, ◌∷◌, [], nat_lt, nat_le, length, IfOk};
ghost use Rattle.std.specs.Int.{w8, w16, w32, w64};
ghost use Rattle.byte_fields.specs.Reading.{any, bytes_of, exactly, id, number, signed};
ghost use Rattle.byte_fields.specs.Gives.{Gives};

use crate::bad_field::BadField;

/// The next `len` bytes.
pub fn bytes_at(bytes: &[u8], len: usize) -> Result<(&[u8], &[u8]), BadField>
    ensures field { Gives (λ x. (x.0.now, x.1.now)) result (bytes_of len any bytes.now) }
    ensures length { IfOk result (λ x. length x.0.now ≡ len) }
{
    if bytes.len() < len {
        return Err(BadField { left: bytes.len() });
    }
    Ok(bytes.split_at(len))
}

/// A number of 8 bits.
pub fn u8_at(bytes: &[u8]) -> Result<(u8, &[u8]), BadField>
    ensures { Gives (λ x. (x.0, x.1.now)) result (number w8 any bytes.now) }
{
    let (field, rest) = bytes_at(bytes, 1)?;
    Ok((u8::from_be_bytes([field[0]]), rest))
}

/// A number of 16 bits.
pub fn u16_at(bytes: &[u8]) -> Result<(u16, &[u8]), BadField>
    ensures { Gives (λ x. (x.0, x.1.now)) result (number w16 any bytes.now) }
{
    let (field, rest) = bytes_at(bytes, 2)?;
    Ok((u16::from_be_bytes([field[0], field[1]]), rest))
}

/// A number of 32 bits.
pub fn u32_at(bytes: &[u8]) -> Result<(u32, &[u8]), BadField>
    ensures { Gives (λ x. (x.0, x.1.now)) result (number w32 any bytes.now) }
{
    let (field, rest) = bytes_at(bytes, 4)?;
    let mut word = [0; 4];
    word.copy_from_slice(field);
    Ok((u32::from_be_bytes(word), rest))
}

/// A number of 64 bits.
pub fn u64_at(bytes: &[u8]) -> Result<(u64, &[u8]), BadField>
    ensures { Gives (λ x. (x.0, x.1.now)) result (number w64 any bytes.now) }
{
    let (field, rest) = bytes_at(bytes, 8)?;
    let mut word = [0; 8];
    word.copy_from_slice(field);
    Ok((u64::from_be_bytes(word), rest))
}

/// A signed number of 32 bits.
pub fn i32_at(bytes: &[u8]) -> Result<(i32, &[u8]), BadField>
    ensures { Gives (λ x. (x.0, x.1.now)) result (signed w32 bytes.now) }
{
    let (field, rest) = bytes_at(bytes, 4)?;
    let mut word = [0; 4];
    word.copy_from_slice(field);
    Ok((i32::from_be_bytes(word), rest))
}

/// A signed number of 64 bits.
pub fn i64_at(bytes: &[u8]) -> Result<(i64, &[u8]), BadField>
    ensures { Gives (λ x. (x.0, x.1.now)) result (signed w64 bytes.now) }
{
    let (field, rest) = bytes_at(bytes, 8)?;
    let mut word = [0; 8];
    word.copy_from_slice(field);
    Ok((i64::from_be_bytes(word), rest))
}

/// An id: 32 bytes.
pub fn id_at(bytes: &[u8]) -> Result<([u8; 32], &[u8]), BadField>
    ensures { Gives (λ x. (x.0, x.1.now)) result (id bytes.now) }
{
    let (field, rest) = bytes_at(bytes, 32)?;
    let mut id = [0; 32];
    id.copy_from_slice(field);
    Ok((id, rest))
}

/// Just this byte: the bytes after it.
pub fn exactly_at(bytes: &[u8], wanted: u8) -> Result<&[u8], BadField>
    ensures { Gives (λ rest. (wanted ∷ [], rest.now)) result (exactly (wanted ∷ []) bytes.now) }
{
    match bytes {
        [first, rest @ ..] if *first == wanted => Ok(rest),
        _ => Err(BadField { left: bytes.len() }),
    }
}

/// A number of 8 bits below a limit.
pub fn u8_below(bytes: &[u8], limit: u8) -> Result<(u8, &[u8]), BadField>
    ensures field { Gives (λ x. (x.0, x.1.now)) result (number w8 (λ n. nat_lt n limit) bytes.now) }
    ensures below { IfOk result (λ x. x.0 < limit) }
{
    match bytes {
        [first, rest @ ..] if *first < limit => Ok((*first, rest)),
        _ => Err(BadField { left: bytes.len() }),
    }
}

/// A number of 32 bits up to a bound.
pub fn u32_up_to(bytes: &[u8], most: u32) -> Result<(u32, &[u8]), BadField>
    ensures { Gives (λ x. (x.0, x.1.now)) result (number w32 (λ n. nat_le n most) bytes.now) }
{
    let (value, rest) = u32_at(bytes)?;
    if value > most {
        return Err(BadField { left: bytes.len() });
    }
    Ok((value, rest))
}

/// A number of 64 bits up to a bound.
pub fn u64_up_to(bytes: &[u8], most: u64) -> Result<(u64, &[u8]), BadField>
    ensures { Gives (λ x. (x.0, x.1.now)) result (number w64 (λ n. nat_le n most) bytes.now) }
{
    let (value, rest) = u64_at(bytes)?;
    if value > most {
        return Err(BadField { left: bytes.len() });
    }
    Ok((value, rest))
}
