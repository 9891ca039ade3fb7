//! The entry of a name, found in the bytes of a node.
ghost use Rattle.std.specs.Prelude.{◌≡◌, ℕ, List, None, Ok, option_map};
ghost use Rattle.std.specs.Ordering.{nat_cmp};
ghost use Rattle.std.specs.Cmp.Lexicographic.{slice_cmp};
ghost use Rattle.std.specs.FinMap.{find as find_key};
ghost use Rattle.byte_fields.specs.Reading.{Reader};
ghost use Rattle.byte_fields.specs.Gives.{Gives};
ghost use Rattle.manifest_model.specs.NodeReading.{entries};
ghost use Rattle.node_fields.specs.Lookup.{named_in, sized};

use byte_fields::BadField;
use byte_fields::fields::{bytes_at, u8_at};
use std::cmp::Ordering;

/// What a directory has under a name, as nodes of one kind spell it.
pub trait Entry: Copy {
    // An entry as contracts see it.
    ghost Seen: { Type 0 };

    ghost seen: { Self → Seen };

    ghost reader: { Reader Seen };

    /// An entry, and the bytes after it.
    fn entry_at(bytes: &[u8]) -> Result<(Self, &[u8]), BadField>
        ensures { Gives (λ x. (seen x.0, x.1.now)) result (reader bytes.now) };
}

/// The entry of a name among as many entries, where the bytes begin with these. It takes no memory, and reads none
/// behind the entry.
pub fn entry_named<E: Entry>(bytes: &[u8], count: u32, name: &[u8]) -> Option<E>
    ensures named { option_map E.seen result ≡ named_in E.reader count name.now bytes.now }
    // Of entries that can be read it is the entry of the name.
    ensures found { (es : List (List ℕ × E.Seen)) (rest : List ℕ) → entries E.reader count None bytes.now ≡ Ok (es, rest) → option_map E.seen result ≡ find_key (slice_cmp nat_cmp) name.now es }
{
    first_named(bytes, count, name)
}

// The first entry under a name, if no greater name comes before it.
fn first_named<E: Entry>(bytes: &[u8], count: u32, name: &[u8]) -> Option<E>
    ensures { option_map E.seen result ≡ named_in E.reader count name.now bytes.now }
{
    let mut left = bytes;
    'looking: for _ in 0..count {
        let Ok((here, after)) = sized_at(left) else {
            return None;
        };
        let read = match E::entry_at(after) {
            Ok(read) => read,
            Err(_) => return None,
        };
        match here.cmp(name) {
            Ordering::Less => left = read.1,
            Ordering::Equal => return Some(read.0),
            Ordering::Greater => return None,
        }
    }
    None
}

// A length in one byte, and as many bytes.
fn sized_at(bytes: &[u8]) -> Result<(&[u8], &[u8]), BadField>
    ensures { Gives (λ x. (x.0.now, x.1.now)) result (sized bytes.now) }
{
    let (len, rest) = u8_at(bytes)?;
    bytes_at(rest, usize::from(len))
}
