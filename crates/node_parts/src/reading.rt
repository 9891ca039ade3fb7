//! One entry at a time: its name, and the bytes after it.
ghost use Rattle.std.specs.Prelude.{◌≡◌, IfSome};
ghost use Rattle.std.specs.Option.{option_copied};
ghost use Rattle.byte_fields.specs.Gives.{Gives};
ghost use Rattle.manifest_model.specs.NodeReading.{is_after_name};
ghost use Rattle.node_fields.specs.Lookup.{sized};
ghost use Rattle.node_parts.specs.Cutting.{IsNext};

use byte_fields::BadField;
use byte_fields::fields::{bytes_at, u8_at};
use node_fields::Entry;

/// A length in one byte, and as many bytes.
pub fn sized_at(bytes: &[u8]) -> Result<(&[u8], &[u8]), BadField>
    ensures { Gives (λ x. (x.0.now, x.1.now)) result (sized bytes.now) }
{
    let (len, rest) = u8_at(bytes)?;
    bytes_at(rest, usize::from(len))
}

/// The name of the entry at which the bytes begin, and the bytes after the entry, if it can be read and its name is
/// greater than the last one.
pub fn next_entry<'a, E: Entry>(
    bytes: &'a [u8],
    last: Option<&[u8]>,
) -> Option<(&'a [u8], &'a [u8])>
    ensures { IfSome result (λ x. IsNext E.reader bytes.now (option_copied last.entry) x.0.now x.1.now) }
{
    let Ok((name, behind)) = sized_at(bytes) else {
        return None;
    };
    if !is_after(last, name) {
        return None;
    }
    match E::entry_at(behind) {
        Ok((_, rest)) => Some((name, rest)),
        Err(_) => None,
    }
}

// Whether a name is greater than the last one, if there is one.
fn is_after(last: Option<&[u8]>, name: &[u8]) -> bool
    ensures { result ≡ is_after_name (option_copied last.entry) name.now }
{
    match last {
        None => true,
        Some(last) => last.cmp(name).is_lt(),
    }
}
