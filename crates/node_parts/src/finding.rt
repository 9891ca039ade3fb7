//! The entry of a name, found in one part.
ghost use Rattle.std.specs.Prelude.{◌≡◌, option_map};
ghost use Rattle.std.specs.Option.{option_copied};
ghost use Rattle.node_fields.specs.Lookup.{named_in, sized};
ghost use Rattle.node_parts.specs.Parts.{AreParts, joined};
ghost use Rattle.node_parts.specs.Finding.{IsPartOf, is_past};

use crate::part::Part;
use crate::reading::sized_at;
use node_fields::{Entry, entry_named};

/// The entry of a name among as many entries in parts: what `entry_named` of `node_fields` finds in the parts as one. It
/// takes no memory, and reads the first names of parts, by halves, and then the entries of one part up to the name.
pub fn entry_in_parts<E: Entry>(parts: &[Part], count: u32, name: &[u8]) -> Option<E>
    requires { AreParts E.reader count parts.now }
    ensures { option_map E.seen result ≡ named_in E.reader count name.now (joined parts.now) }
{
    match part_of(parts, name) {
        Some(part) => entry_named(part.bytes(), count, name),
        None => None,
    }
}

// The last part whose first name isn't greater than this one, found by halves.
fn part_of<'a>(parts: &'a [Part], name: &[u8]) -> Option<&'a Part>
    ensures { IsPartOf parts.now name.now (option_copied result) }
{
    let mut low = 0;
    let mut high = parts.len();
    'halving: while low < high {
        let middle = low + (high - low) / 2;
        if is_past_at(&parts[middle], name) {
            high = middle;
        } else {
            low = middle + 1;
        }
    }
    if low == 0 {
        return None;
    }
    Some(&parts[low - 1])
}

// Whether the first name of a part is greater than this one.
fn is_past_at(part: &Part, name: &[u8]) -> bool
    ensures { result ≡ is_past (sized part.now) name.now }
{
    match sized_at(part.bytes()) {
        Ok((here, _)) => here.cmp(name).is_gt(),
        Err(_) => true,
    }
}
