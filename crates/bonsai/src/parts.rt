//! The parts of a changeset, each read from left to right.
ghost use Rattle.std.specs.Prelude.{◌≡◌, ◌≤◌, length, string_bytes, nat_lt, nat_le, ◌&&◌, not, bytes_eq, option_map, IfOk, IfErr};
ghost use Rattle.std.specs.Int.{w16};
ghost use Rattle.byte_fields.specs.Gives.{Gives};
ghost use Rattle.byte_fields.specs.Reading.{number, bytes_of, keeping};
ghost use Rattle.byte_fields.specs.Reads.{Reads};
ghost use Rattle.byte_fields.specs.declared.field_fault.FieldFault.TheVariants.{Memory};
ghost use Rattle.changeset_model.specs.Path.{elements, is_path};
ghost use Rattle.changeset_model.specs.Decoding as decoding;
ghost use Rattle.bonsai.specs.Versions.{version_view};
ghost use Rattle.bonsai.specs.View.{source_view, change_view, edit_view};

use crate::change::Change;
use crate::copy_source::CopySource;
use crate::edit::Edit;
use crate::kind_at;
use crate::limits::{LONGEST_AUTHOR, LONGEST_MESSAGE, MOST_SIZE};
use crate::text::{line_of, text_of};
use crate::version::Version;
use byte_fields::fields::{bytes_at, id_at, u8_below, u16_at, u32_up_to, u64_up_to};
use byte_fields::{BadField, FieldFault};
use object_id::Id;
use repo_path::{LONGEST_PATH, PathFault, RepoPath};
use std::alloc::Global;

// A length of 16 bits, at least 1.
fn short_len(bytes: &[u8], most: u16) -> Result<(usize, &[u8]), BadField>
    ensures { Gives (λ x. (x.0, x.1.now)) result (number w16 (λ n. nat_lt 0 n && nat_le n most) bytes.now) }
{
    let (len, rest) = u16_at(bytes)?;
    if len == 0 || len > most {
        return Err(BadField { left: bytes.len() });
    }
    Ok((usize::from(len), rest))
}

/// The author.
pub(crate) fn author_at(alloc: Global, bytes: &[u8]) -> Result<(String, &[u8]), FieldFault>
    ensures { Reads (λ x. (string_bytes x.0, x.1.now)) result (decoding.author bytes.now) }
{
    let (len, rest) = short_len(bytes, LONGEST_AUTHOR)?;
    let (text, after) = bytes_at(rest, len)?;
    let Some(author) = line_of(text) else {
        return Err(FieldFault::Bad { left: rest.len() });
    };
    Ok((String::from_str(alloc, author)?, after))
}

/// The message.
pub(crate) fn message_at(alloc: Global, bytes: &[u8]) -> Result<(String, &[u8]), FieldFault>
    ensures { Reads (λ x. (string_bytes x.0, x.1.now)) result (decoding.message bytes.now) }
{
    let (len, rest) = u32_up_to(bytes, LONGEST_MESSAGE)?;
    let (text, after) = bytes_at(rest, len as usize)?;
    let Some(message) = text_of(text) else {
        return Err(FieldFault::Bad { left: rest.len() });
    };
    Ok((String::from_str(alloc, message)?, after))
}

/// The parents: at most two, the second another one than the first.
pub(crate) fn parent_list_at(alloc: Global, bytes: &[u8]) -> Result<(Vec<Id>, &[u8]), FieldFault>
    ensures read { Reads (λ x. (x.0.items, x.1.now)) result (decoding.parent_list bytes.now) }
    ensures few { IfOk result (λ x. length x.0.items ≤ 2) }
{
    let (count, rest) = u8_below(bytes, 3)?;
    match count {
        0 => Ok((Vec::new(alloc), rest)),
        1 => one_parent(alloc, rest),
        _ => two_parents(alloc, rest),
    }
}

fn one_parent(alloc: Global, bytes: &[u8]) -> Result<(Vec<Id>, &[u8]), FieldFault>
    ensures read { Reads (λ x. (x.0.items, x.1.now)) result (decoding.parents 1 bytes.now) }
    ensures few { IfOk result (λ x. length x.0.items ≤ 2) }
{
    let (first, rest) = id_at(bytes)?;
    let parents = Vec::from_array(alloc, [Id::from_bytes(first)])?;
    Ok((parents, rest))
}

fn two_parents(alloc: Global, bytes: &[u8]) -> Result<(Vec<Id>, &[u8]), FieldFault>
    ensures read { Reads (λ x. (x.0.items, x.1.now)) result (decoding.parents 2 bytes.now) }
    ensures few { IfOk result (λ x. length x.0.items ≤ 2) }
{
    let (first, rest) = id_at(bytes)?;
    let (second, rest) = other_id_at(rest, &first)?;
    let parents = Vec::from_array(alloc, [Id::from_bytes(first), Id::from_bytes(second)])?;
    Ok((parents, rest))
}

// An id that differs from another.
fn other_id_at<'a>(bytes: &'a [u8], first: &[u8; 32]) -> Result<([u8; 32], &'a [u8]), BadField>
    ensures { Gives (λ x. (x.0, x.1.now)) result (bytes_of 32 (λ x. not (bytes_eq first.now x)) bytes.now) }
{
    let (id, rest) = id_at(bytes)?;
    if first.as_slice() == id.as_slice() {
        return Err(BadField { left: bytes.len() });
    }
    Ok((id, rest))
}

// The path that a text is, if it is one and comes after the path before.
fn next_path(
    alloc: Global,
    before: Option<&RepoPath>,
    text: &[u8],
) -> Result<Option<RepoPath>, FieldFault>
    ensures path { IfOk result (λ p. p ≡ keeping (λ p. is_path p && decoding.is_after (option_map (λ q. q.now) before.entry) p) (elements text.now)) }
    ensures memory { IfErr result (λ e. e ≡ Memory) }
{
    let path = match RepoPath::from_bytes(alloc, text) {
        Ok(path) => path,
        Err(PathFault::BadPath { .. }) => return Ok(None),
        Err(PathFault::Memory) => return Err(FieldFault::Memory),
    };
    let rises = match before {
        Some(before) => *before < path,
        None => true,
    };
    Ok(if rises { Some(path) } else { None })
}

fn path_at<'a>(
    alloc: Global,
    before: Option<&RepoPath>,
    bytes: &'a [u8],
) -> Result<(RepoPath, &'a [u8]), FieldFault>
    ensures { Reads (λ x. (x.0, x.1.now)) result (decoding.path (option_map (λ q. q.now) before.entry) bytes.now) }
{
    let (len, rest) = short_len(bytes, LONGEST_PATH as u16)?;
    let (text, after) = bytes_at(rest, len)?;
    let Some(path) = next_path(alloc, before, text)? else {
        return Err(FieldFault::Bad { left: rest.len() });
    };
    Ok((path, after))
}

// The parent's place and the path of a copy source.
fn source_at(
    alloc: Global,
    parents: u8,
    bytes: &[u8],
) -> Result<(Option<CopySource>, &[u8]), FieldFault>
    ensures { Reads (λ x. (option_map source_view x.0, x.1.now)) result (decoding.source_for parents 1 bytes.now) }
{
    let (parent, rest) = u8_below(bytes, parents)?;
    let (path, rest) = path_at(alloc, None, rest)?;
    Ok((Some(CopySource { parent, path }), rest))
}

fn source_if_told(
    alloc: Global,
    parents: u8,
    bytes: &[u8],
) -> Result<(Option<CopySource>, &[u8]), FieldFault>
    ensures { Reads (λ x. (option_map source_view x.0, x.1.now)) result (decoding.source parents bytes.now) }
{
    let (flag, rest) = u8_below(bytes, 2)?;
    if flag == 0 {
        return Ok((None, rest));
    }
    source_at(alloc, parents, rest)
}

// Where a file that is set was copied from. The first version has nothing there.
fn copied_at(
    alloc: Global,
    version: Version,
    parents: u8,
    bytes: &[u8],
) -> Result<(Option<CopySource>, &[u8]), FieldFault>
    ensures { Reads (λ x. (option_map source_view x.0, x.1.now)) result (decoding.copied (version_view version) parents bytes.now) }
{
    match version {
        Version::First => Ok((None, bytes)),
        Version::Second => source_if_told(alloc, parents, bytes),
    }
}

// A file's type, size and content, which a change sets, and where it was copied from.
fn set_at(
    alloc: Global,
    version: Version,
    parents: u8,
    bytes: &[u8],
) -> Result<(Change, &[u8]), FieldFault>
    ensures { Reads (λ x. (change_view x.0, x.1.now)) result (decoding.change_of (version_view version) parents 1 bytes.now) }
{
    let (kind, rest) = kind_at(bytes)?;
    let (size, rest) = u64_up_to(rest, MOST_SIZE)?;
    let (content, rest) = id_at(rest)?;
    let (copied, rest) = copied_at(alloc, version, parents, rest)?;
    let set = Change::Set {
        content: Id::from_bytes(content),
        kind,
        size,
        copied,
    };
    Ok((set, rest))
}

fn change_at(
    alloc: Global,
    version: Version,
    parents: u8,
    bytes: &[u8],
) -> Result<(Change, &[u8]), FieldFault>
    ensures { Reads (λ x. (change_view x.0, x.1.now)) result (decoding.change (version_view version) parents bytes.now) }
{
    let (tag, rest) = u8_below(bytes, 2)?;
    if tag == 0 {
        return Ok((Change::Delete, rest));
    }
    set_at(alloc, version, parents, rest)
}

/// A path after the one before, with its change.
pub(crate) fn edit_at<'a>(
    alloc: Global,
    version: Version,
    parents: u8,
    before: Option<&RepoPath>,
    bytes: &'a [u8],
) -> Result<(Edit, &'a [u8]), FieldFault>
    ensures { Reads (λ x. (edit_view x.0, x.1.now)) result (decoding.edit (version_view version) parents (option_map (λ q. q.now) before.entry) bytes.now) }
{
    let (path, rest) = path_at(alloc, before, bytes)?;
    let (change, rest) = change_at(alloc, version, parents, rest)?;
    Ok((Edit { path, change }, rest))
}
