//! The entry of a name, found in the bytes of a directory's unode.
ghost use Rattle.std.specs.Prelude.{◌≡◌, Ok, option_map};
ghost use Rattle.std.specs.Ordering.{nat_cmp};
ghost use Rattle.std.specs.Cmp.Lexicographic.{slice_cmp};
ghost use Rattle.std.specs.FinMap.{find as find_key};
ghost use Rattle.byte_fields.specs.Gives.{Gives};
ghost use Rattle.manifest_model.specs.Unode.{Unode as ModelUnode, UnodeEntry as ModelEntry};
ghost use Rattle.manifest_model.specs.NodeReading.{one_unode_entry, unode_of};
ghost use Rattle.unode.specs.Parts.{entry_seen};
ghost use Rattle.unode.specs.Lookup.{entries_in, entry_count, entry_named as named, manifest_count};

use crate::entry::UnodeEntry;
use crate::reading::{FILE_MARK, MANIFEST_MARK, entry_at, parents_at};
use byte_fields::BadField;
use byte_fields::fields::{id_at, u8_at, u32_at};
use node_fields::{Entry, entry_named};

impl Entry for UnodeEntry {
    ghost Seen = { ModelEntry };

    ghost seen = { entry_seen };

    ghost reader = { one_unode_entry };

    fn entry_at(bytes: &[u8]) -> Result<(UnodeEntry, &[u8]), BadField> {
        entry_at(bytes)
    }
}

/// The entry of a name in the unode of a directory that the bytes spell. It takes no memory, and reads nothing behind the
/// entry.
pub fn entry_in(bytes: &[u8], name: &str) -> Option<UnodeEntry>
    ensures named { option_map entry_seen result ≡ named bytes.now name.now }
    // Of bytes that are a unode it is the entry of the name, of which a file's has none.
    ensures found { (n : ModelUnode) → unode_of bytes.now ≡ Ok n → option_map entry_seen result ≡ find_key (slice_cmp nat_cmp) name.now (entries_in n) }
{
    first_in(bytes, name)
}

// The first entry under a name, if no greater name comes before it.
fn first_in(bytes: &[u8], name: &str) -> Option<UnodeEntry>
    ensures { option_map entry_seen result ≡ named bytes.now name.now }
{
    match count_at(bytes) {
        Ok((count, rest)) => entry_named(rest, count, name.as_bytes()),
        Err(_) => None,
    }
}

// What stands before the entries, and how many they are. A file's unode has none.
fn count_at(bytes: &[u8]) -> Result<(u32, &[u8]), BadField>
    ensures { Gives (λ x. (x.0, x.1.now)) result (entry_count bytes.now) }
{
    let (mark, rest) = u8_at(bytes)?;
    match mark {
        MANIFEST_MARK => manifest_count_at(rest),
        FILE_MARK => Err(BadField { left: rest.len() }),
        _ => Err(BadField { left: bytes.len() }),
    }
}

fn manifest_count_at(bytes: &[u8]) -> Result<(u32, &[u8]), BadField>
    ensures { Gives (λ x. (x.0, x.1.now)) result (manifest_count bytes.now) }
{
    let (_parents, rest) = match parents_at(bytes) {
        Ok(read) => read,
        Err(fault) => return Err(fault),
    };
    let (_linknode, rest) = id_at(rest)?;
    u32_at(rest)
}
