//! The edits of a changeset, read one after another.
ghost use Rattle.std.specs.Prelude.{◌≡◌, None, option_map};
ghost use Rattle.changeset_model.specs.Decoding as decoding;
ghost use Rattle.byte_fields.specs.Reads.{Reads};
ghost use Rattle.bonsai.specs.LastPath.{last_path as last_path_of};
ghost use Rattle.bonsai.specs.Versions.{version_view};
ghost use Rattle.bonsai.specs.View.{edits_view};

use crate::edit::Edit;
use crate::limits::MOST_EDITS;
use crate::parts::edit_at;
use crate::version::Version;
use byte_fields::FieldFault;
use byte_fields::fields::u32_up_to;
use repo_path::RepoPath;
use std::alloc::Global;

/// The edits of a changeset of this version with so many parents, by rising paths.
pub(crate) fn edit_list_at(
    alloc: Global,
    version: Version,
    parents: u8,
    bytes: &[u8],
) -> Result<(Vec<Edit>, &[u8]), FieldFault>
    ensures { Reads (λ x. (edits_view x.0.items, x.1.now)) result (decoding.edit_list (version_view version) parents bytes.now) }
{
    let (count, rest) = u32_up_to(bytes, MOST_EDITS)?;
    edits_at(alloc, version, parents, count, rest)
}

fn edits_at(
    alloc: Global,
    version: Version,
    parents: u8,
    count: u32,
    bytes: &[u8],
) -> Result<(Vec<Edit>, &[u8]), FieldFault>
    ensures { Reads (λ x. (edits_view x.0.items, x.1.now)) result (decoding.edits (version_view version) parents count None bytes.now) }
{
    let mut edits = Vec::with_capacity(alloc, count as usize)?;
    let mut rest = bytes;
    for _ in 0..count {
        let (edit, after) = edit_at(alloc, version, parents, last_path(&edits), rest)?;
        edits.push(edit)?;
        rest = after;
    }
    Ok((edits, rest))
}

fn last_path(edits: &[Edit]) -> Option<&RepoPath>
    ensures { option_map (λ p. p.now) result ≡ last_path_of None (edits_view edits.now) }
{
    match edits.last() {
        Some(edit) => Some(&edit.path),
        None => None,
    }
}
