//! The link and the entry of a name, found in the bytes of a deleted node.
ghost use Rattle.std.specs.Prelude.{◌≡◌, Ok, option_map};
ghost use Rattle.std.specs.Ordering.{nat_cmp};
ghost use Rattle.std.specs.Cmp.Lexicographic.{slice_cmp};
ghost use Rattle.std.specs.FinMap.{find as find_key};
ghost use Rattle.byte_fields.specs.Bytes.{Id as IdBytes};
ghost use Rattle.byte_fields.specs.Gives.{Gives};
ghost use Rattle.byte_fields.specs.Reading.{id};
ghost use Rattle.manifest_model.specs.Deleted.{DeletedNode as ModelNode};
ghost use Rattle.manifest_model.specs.NodeReading.{deleted_of};
ghost use Rattle.deleted_node.specs.Parts.{entry_seen};
ghost use Rattle.deleted_node.specs.Lookup.{before_count, entry_count, entry_named as named, link_in as link_of};

use crate::entry::DeletedEntry;
use crate::reading::{entry_at, link_at};
use byte_fields::BadField;
use byte_fields::fields::{exactly_at, u32_at};
use node_fields::{Entry, entry_named};
use object_id::Id;

impl Entry for DeletedEntry {
    ghost Seen = { IdBytes };

    ghost seen = { entry_seen };

    ghost reader = { id };

    fn entry_at(bytes: &[u8]) -> Result<(DeletedEntry, &[u8]), BadField> {
        entry_at(bytes)
    }
}

/// The link of the deleted node that the bytes spell. It takes no memory, and reads nothing behind the link.
pub fn link_in(bytes: &[u8]) -> Option<Id>
    ensures link { result ≡ link_of bytes.now }
    // Of bytes that are a deleted node it is the link of the node.
    ensures found { (n : ModelNode) → deleted_of bytes.now ≡ Ok n → result ≡ n.link }
{
    first_link(bytes)
}

fn first_link(bytes: &[u8]) -> Option<Id>
    ensures { result ≡ link_of bytes.now }
{
    match before_count_at(bytes) {
        Ok((link, _)) => link,
        Err(_) => None,
    }
}

/// The entry of a name in the deleted node that the bytes spell. It takes no memory, and reads nothing behind the entry.
pub fn entry_in(bytes: &[u8], name: &str) -> Option<DeletedEntry>
    ensures named { option_map entry_seen result ≡ named bytes.now name.now }
    // Of bytes that are a deleted node it is the entry of the name.
    ensures found { (n : ModelNode) → deleted_of bytes.now ≡ Ok n → option_map entry_seen result ≡ find_key (slice_cmp nat_cmp) name.now n.entries }
{
    first_in(bytes, name)
}

// The first entry under a name, if no greater name comes before it.
fn first_in(bytes: &[u8], name: &str) -> Option<DeletedEntry>
    ensures { option_map entry_seen result ≡ named bytes.now name.now }
{
    match count_at(bytes) {
        Ok((count, rest)) => entry_named(rest, count, name.as_bytes()),
        Err(_) => None,
    }
}

// What stands before the entries, and how many they are.
fn count_at(bytes: &[u8]) -> Result<(u32, &[u8]), BadField>
    ensures { Gives (λ x. (x.0, x.1.now)) result (entry_count bytes.now) }
{
    let (_link, rest) = match before_count_at(bytes) {
        Ok(read) => read,
        Err(fault) => return Err(fault),
    };
    u32_at(rest)
}

// The mark, the version and the link.
fn before_count_at(bytes: &[u8]) -> Result<(Option<Id>, &[u8]), BadField>
    ensures { Gives (λ x. (x.0, x.1.now)) result (before_count bytes.now) }
{
    let rest = exactly_at(bytes, 0x44)?;
    let rest = exactly_at(rest, 1)?;
    link_at(rest)
}
