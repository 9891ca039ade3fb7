//! The entry of a name, found in the bytes of an fsnode.
ghost use Rattle.std.specs.Prelude.{◌≡◌, Ok, option_map};
ghost use Rattle.std.specs.Ordering.{nat_cmp};
ghost use Rattle.std.specs.Cmp.Lexicographic.{slice_cmp};
ghost use Rattle.std.specs.FinMap.{find as find_key};
ghost use Rattle.byte_fields.specs.Gives.{Gives};
ghost use Rattle.manifest_model.specs.Fsnode.{FsEntry as ModelEntry, Fsnode as ModelFsnode};
ghost use Rattle.manifest_model.specs.NodeReading.{fs_entry, fsnode_of};
ghost use Rattle.fsnode.specs.Parts.{entry_seen};
ghost use Rattle.fsnode.specs.Lookup.{entry_count, entry_named as named};

use crate::entry::FsEntry;
use crate::reading::{entry_at, summary_at};
use byte_fields::BadField;
use byte_fields::fields::{exactly_at, u32_at};
use node_fields::{Entry, entry_named};

impl Entry for FsEntry {
    ghost Seen = { ModelEntry };

    ghost seen = { entry_seen };

    ghost reader = { fs_entry };

    fn entry_at(bytes: &[u8]) -> Result<(FsEntry, &[u8]), BadField> {
        entry_at(bytes)
    }
}

/// The entry of a name in the fsnode that the bytes spell. It takes no memory, and reads nothing behind the entry.
pub fn entry_in(bytes: &[u8], name: &str) -> Option<FsEntry>
    ensures named { option_map entry_seen result ≡ named bytes.now name.now }
    // Of bytes that are an fsnode it is the entry of the name.
    ensures found { (n : ModelFsnode) → fsnode_of bytes.now ≡ Ok n → option_map entry_seen result ≡ find_key (slice_cmp nat_cmp) name.now n.entries }
{
    first_in(bytes, name)
}

// The first entry under a name, if no greater name comes before it.
fn first_in(bytes: &[u8], name: &str) -> Option<FsEntry>
    ensures { option_map entry_seen result ≡ named bytes.now name.now }
{
    match count_at(bytes) {
        Ok((count, rest)) => entry_named(rest, count, name.as_bytes()),
        Err(_) => None,
    }
}

// What stands before the entries, and how many they are.
fn count_at(bytes: &[u8]) -> Result<(u32, &[u8]), BadField>
    ensures { Gives (λ x. (x.0, x.1.now)) result (entry_count bytes.now) }
{
    let rest = exactly_at(bytes, 0x46)?;
    let rest = exactly_at(rest, 1)?;
    let (_summary, rest) = summary_at(rest)?;
    u32_at(rest)
}
