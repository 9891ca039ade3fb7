//! Entries, cut into parts behind such names as decide so.
ghost use Rattle.std.specs.Prelude.{◌≡◌, IfOk, IfSome};
ghost use Rattle.std.specs.Option.{option_copied};
ghost use Rattle.node_parts.specs.Parts.{AreParts, ReadsOn, joined};
ghost use Rattle.node_parts.specs.Cutting.{IsRunOn};

use crate::part::Part;
use crate::pool::{PartPool, mixed};
use crate::reading::next_entry;
use node_fields::Entry;
use std::alloc::{AllocError, Global};

// A part ends behind a name whose number has none of these bits: so it has 8 entries on the average, and 32 where there are
// many. Each version of a node has a list of all its parts, and a new one or two.
const BITS: u64 = 7;

const BITS_OF_MANY: u64 = 31;

const MANY: u32 = 2_048;

// How many entries a part has at most.
const MOST: u32 = 256;

/// Whole entries at the front of some bytes.
#[derive(Clone, Copy)]
pub(crate) struct Run<'a> {
    pub(crate) part: &'a [u8],
    pub(crate) entries: u32,
    pub(crate) last: &'a [u8],
    pub(crate) rest: &'a [u8],
}

/// As many entries in parts, where the bytes are these, each can be read, and their names rise. Where a part ends is decided
/// by the name of its last entry alone, but for a long one and for whether there are many: so an entry more, less or changed
/// changes one part, or two.
pub fn parts_of<E: Entry>(
    alloc: Global,
    bytes: &[u8],
    count: u32,
    pool: &mut PartPool,
) -> Result<Option<Vec<Part>>, AllocError>
    requires { ReadsOn E.reader }
    ensures are { IfOk result (λ parts. IfSome parts (λ ps. AreParts E.reader count ps.items)) }
    ensures joined { IfOk result (λ parts. IfSome parts (λ ps. joined ps.items ≡ bytes.now)) }
{
    let bits = if count < MANY { BITS } else { BITS_OF_MANY };
    let mut parts = Vec::new(alloc);
    let mut left = bytes;
    let mut last = None;
    let mut remaining = count;
    'parts: while remaining > 0 {
        let Some(run) = next_run::<E>(left, last, bits) else {
            return Ok(None);
        };
        let Some(fewer) = remaining.checked_sub(run.entries) else {
            return Ok(None);
        };
        parts.push(pool.part(alloc, run.part)?)?;
        remaining = fewer;
        last = Some(run.last);
        left = run.rest;
    }
    if !left.is_empty() {
        return Ok(None);
    }
    parts.shrink_to_fit();
    Ok(Some(parts))
}

// The entries up to the end of a part, if each can be read, and their names rise from the one before.
fn next_run<'a, E: Entry>(bytes: &'a [u8], before: Option<&[u8]>, bits: u64) -> Option<Run<'a>>
    requires { ReadsOn E.reader }
    ensures { IfSome result (λ run. IsRunOn E.reader bytes.now (option_copied before.entry) run.part.now run.entries run.last.now run.rest.now) }
{
    let (name, rest) = next_entry::<E>(bytes, before)?;
    let mut last = name;
    let mut left = rest;
    let mut entries = 1;
    'entries: while entries < MOST && !left.is_empty() && !ends_part(last, bits) {
        let (name, rest) = next_entry::<E>(left, Some(last))?;
        last = name;
        left = rest;
        entries += 1;
    }
    let (part, rest) = bytes.split_at(bytes.len() - left.len());
    Some(Run {
        part,
        entries,
        last,
        rest,
    })
}

// Whether a part ends behind the entry of a name.
fn ends_part(name: &[u8], bits: u64) -> bool {
    let mut number = 0;
    for byte in name {
        number = mixed(number, u64::from(*byte));
    }
    (number >> 32) & bits == 0
}
