//! What stands before the entries of a node, and how many they are.
ghost use Rattle.std.specs.Prelude.{◌≡◌};
ghost use Rattle.byte_fields.specs.Gives.{Gives};
ghost use Rattle.byte_fields.specs.Reading.{id, times};
ghost use Rattle.history_model.specs.Payload.{flagged, optional};
ghost use Rattle.manifest_model.specs.NodeReading.{node_parents, summary, summary_fields};
ghost use Rattle.fsnode.specs.Parts.{summary_seen};
ghost use Rattle.fsnode.specs.Lookup.{entry_count as fs_count};
ghost use Rattle.unode.specs.Parts.{parents_seen};
ghost use Rattle.unode.specs.Lookup.{entry_count as unode_count, manifest_count};
ghost use Rattle.deleted_node.specs.Lookup.{entry_count as deleted_count};

use byte_fields::BadField;
use byte_fields::fields::{exactly_at, id_at, u8_at, u8_below, u32_at, u64_at};
use fsnode::Summary;
use object_id::Id;
use unode::Parents;

// The first bytes of nodes.
const FSNODE_MARK: u8 = 0x46;

const MANIFEST_MARK: u8 = 0x55;

const FILE_MARK: u8 = 0x56;

const DELETED_MARK: u8 = 0x44;

/// The count of an fsnode's entries, and the bytes of the entries.
pub(crate) fn fs_count_at(bytes: &[u8]) -> Result<(u32, &[u8]), BadField>
    ensures { Gives (λ x. (x.0, x.1.now)) result (fs_count bytes.now) }
{
    let rest = exactly_at(bytes, FSNODE_MARK)?;
    let rest = exactly_at(rest, 1)?;
    let (_summary, rest) = summary_at(rest)?;
    u32_at(rest)
}

fn summary_at(bytes: &[u8]) -> Result<(Summary, &[u8]), BadField>
    ensures { Gives (λ x. (summary_seen x.0, x.1.now)) result (summary bytes.now) }
{
    summary_numbers_at(bytes).map_err(|_| BadField { left: bytes.len() })
}

fn summary_numbers_at(bytes: &[u8]) -> Result<(Summary, &[u8]), BadField>
    ensures { Gives (λ x. (summary_seen x.0, x.1.now)) result (summary_fields bytes.now) }
{
    let (child_files_count, rest) = u64_at(bytes)?;
    let (child_files_total_size, rest) = u64_at(rest)?;
    let (child_dirs_count, rest) = u64_at(rest)?;
    let (descendant_files_count, rest) = u64_at(rest)?;
    let (descendant_files_total_size, rest) = u64_at(rest)?;
    let summary = Summary {
        child_files_count,
        child_files_total_size,
        child_dirs_count,
        descendant_files_count,
        descendant_files_total_size,
    };
    Ok((summary, rest))
}

/// The count of the entries of a directory's unode, and the bytes of the entries. A file's unode has none.
pub(crate) fn unode_count_at(bytes: &[u8]) -> Result<(u32, &[u8]), BadField>
    ensures { Gives (λ x. (x.0, x.1.now)) result (unode_count bytes.now) }
{
    let (mark, rest) = u8_at(bytes)?;
    match mark {
        MANIFEST_MARK => manifest_count_at(rest),
        FILE_MARK => Err(BadField { left: rest.len() }),
        _ => Err(BadField { left: bytes.len() }),
    }
}

fn manifest_count_at(bytes: &[u8]) -> Result<(u32, &[u8]), BadField>
    ensures { Gives (λ x. (x.0, x.1.now)) result (manifest_count bytes.now) }
{
    let (_parents, rest) = match parents_at(bytes) {
        Ok(read) => read,
        Err(fault) => return Err(fault),
    };
    let (_linknode, rest) = id_at(rest)?;
    u32_at(rest)
}

// The version, and the parents, at most two, behind the count of them.
fn parents_at(bytes: &[u8]) -> Result<(Parents, &[u8]), BadField>
    ensures { Gives (λ x. (parents_seen x.0, x.1.now)) result (node_parents bytes.now) }
{
    let rest = exactly_at(bytes, 1)?;
    let (count, rest) = u8_below(rest, 3)?;
    match count {
        0 => Ok((Parents::Absent, rest)),
        1 => one_parent_at(rest),
        _ => two_parents_at(rest),
    }
}

fn one_parent_at(bytes: &[u8]) -> Result<(Parents, &[u8]), BadField>
    ensures { Gives (λ x. (parents_seen x.0, x.1.now)) result (times 1 id bytes.now) }
{
    let (parent, rest) = id_at(bytes)?;
    Ok((Parents::One(Id::from_bytes(parent)), rest))
}

fn two_parents_at(bytes: &[u8]) -> Result<(Parents, &[u8]), BadField>
    ensures { Gives (λ x. (parents_seen x.0, x.1.now)) result (times 2 id bytes.now) }
{
    let (first, rest) = id_at(bytes)?;
    let (second, rest) = id_at(rest)?;
    let parents = Parents::Two(Id::from_bytes(first), Id::from_bytes(second));
    Ok((parents, rest))
}

/// The count of a deleted node's entries, and the bytes of the entries.
pub(crate) fn deleted_count_at(bytes: &[u8]) -> Result<(u32, &[u8]), BadField>
    ensures { Gives (λ x. (x.0, x.1.now)) result (deleted_count bytes.now) }
{
    let rest = exactly_at(bytes, DELETED_MARK)?;
    let rest = exactly_at(rest, 1)?;
    let (_link, rest) = match link_at(rest) {
        Ok(read) => read,
        Err(fault) => return Err(fault),
    };
    u32_at(rest)
}

// An id that may be absent: one field with its flag.
fn link_at(bytes: &[u8]) -> Result<(Option<Id>, &[u8]), BadField>
    ensures { Gives (λ x. (x.0, x.1.now)) result (optional bytes.now) }
{
    let left = bytes.len();
    match bytes {
        [0, rest @ ..] => Ok((None, rest)),
        [1, rest @ ..] => match present_id_at(rest) {
            Ok(present) => Ok(present),
            Err(_) => Err(BadField { left }),
        },
        _ => Err(BadField { left }),
    }
}

// The id behind the flag of one that is there.
fn present_id_at(bytes: &[u8]) -> Result<(Option<Id>, &[u8]), BadField>
    ensures { Gives (λ x. (x.0, x.1.now)) result (flagged 1 bytes.now) }
{
    let (id, rest) = id_at(bytes)?;
    Ok((Some(Id::from_bytes(id)), rest))
}
