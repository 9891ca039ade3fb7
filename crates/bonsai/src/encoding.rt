//! The spelling of a changeset. Numbers stand high byte first.
ghost use Rattle.std.specs.Prelude.{◌≡◌, ◌≤◌, ◌+◌, option_map, ◌∷◌, ◌++◌, length, flat_map, OnOk, IfOk, IsTrue};
ghost use Rattle.std.specs.List.{concat};
ghost use Rattle.std.specs.Int.{w16, w32, w64, to_be_bytes, cast_unsigned};
ghost use Rattle.byte_fields.specs.Bytes.{sized};
ghost use Rattle.changeset_model.specs.Changeset as model;
ghost use Rattle.changeset_model.specs.Version.{version_byte};
ghost use Rattle.bonsai.specs.Versions.{version_view};
ghost use Rattle.bonsai.specs.View.{source_view, change_view, edit_view, edits_view, parts_view};

use crate::change::Change;
use crate::changeset::Changeset;
use crate::copy_source::CopySource;
use crate::edit::Edit;
use crate::limits::{LONGEST_AUTHOR, LONGEST_MESSAGE, MOST_EDITS, MOST_PARENTS};
use crate::told::Parts;
use crate::version::Version;
use object_id::Id;
use repo_path::LONGEST_PATH;
use std::alloc::{AllocError, Global};

/// The one encoding of a changeset.
pub fn encode(alloc: Global, changeset: &Changeset) -> Result<Vec<u8>, AllocError>
    ensures { IfOk result (λ bytes. bytes.items ≡ model.spelling changeset.now) }
{
    let mut out = Vec::with_capacity(alloc, room_for(changeset))?;
    encode_into(&mut out, changeset)?;
    Ok(out)
}

/// Writes the one encoding of a changeset at the end.
pub fn encode_into(out: &mut Vec<u8>, changeset: &Changeset) -> Result<(), AllocError>
    ensures { OnOk result (out.new.items ≡ out.old.items ++ model.spelling changeset.now) }
{
    put_parts(out, changeset.parts())
}

// As many bytes as the encoding has, so that it is written without moving.
fn room_for(changeset: &Changeset) -> usize {
    let told = &*changeset.told;
    let ids = changeset.parents.len().saturating_mul(32);
    let texts = told.author.len().saturating_add(told.message.len());
    told.edits
        .iter()
        .fold(ids.saturating_add(texts).saturating_add(25), |room, edit| {
            room.saturating_add(room_for_edit(edit))
        })
}

fn room_for_edit(edit: &Edit) -> usize {
    let path = edit.path.as_str().len();
    match &edit.change {
        Change::Delete => path + 3,
        Change::Set { copied, .. } => path + 44 + room_for_source(copied),
    }
}

fn room_for_source(copied: &Option<CopySource>) -> usize
    ensures { result ≤ LONGEST_PATH + 4 }
{
    match copied {
        Some(source) => source.path.as_str().len() + 4,
        None => 1,
    }
}

fn put_parts(out: &mut Vec<u8>, parts: Parts<'_>) -> Result<(), AllocError>
    requires { IsTrue (model.is_changeset (parts_view parts)) }
    ensures { OnOk result (out.new.items ≡ out.old.items ++ model.spelling (parts_view parts.entry)) }
{
    let told = parts.told;
    put_head(out, parts.version, parts.parents)?;
    put_author(out, told.author.as_str())?;
    put_date(out, parts.date.seconds, parts.date.offset)?;
    put_message(out, told.message.as_str())?;
    put_edit_list(out, parts.version, told.edits.as_slice())?;
    Ok(())
}

// The mark, the version and the parents.
fn put_head(out: &mut Vec<u8>, version: Version, parents: &[Id]) -> Result<(), AllocError>
    requires { length parents.now ≤ MOST_PARENTS }
    ensures { OnOk result (out.new.items ≡ out.old.items ++ 0x43 ∷ version_byte (version_view version) ∷ length parents.now ∷ concat parents.now) }
{
    out.extend_from_slice(&[b'C', version.to_byte(), parents.len() as u8])?;
    put_parents(out, parents)
}

fn put_date(out: &mut Vec<u8>, seconds: i64, offset: i32) -> Result<(), AllocError>
    ensures { OnOk result (out.new.items ≡ out.old.items ++ to_be_bytes w64 (cast_unsigned w64 seconds) ++ to_be_bytes w32 (cast_unsigned w32 offset)) }
{
    out.extend_from_slice(&seconds.to_be_bytes())?;
    out.extend_from_slice(&offset.to_be_bytes())
}

// How many edits there are, and then each.
fn put_edit_list(out: &mut Vec<u8>, version: Version, edits: &[Edit]) -> Result<(), AllocError>
    requires { length edits.now ≤ MOST_EDITS }
    ensures { OnOk result (out.new.items ≡ out.old.items ++ to_be_bytes w32 (length edits.now) ++ flat_map (model.edit_bytes (version_view version)) (edits_view edits.now)) }
{
    out.extend_from_slice(&(edits.len() as u32).to_be_bytes())?;
    put_edits(out, version, edits)
}

fn put_parents(out: &mut Vec<u8>, parents: &[Id]) -> Result<(), AllocError>
    ensures { OnOk result (out.new.items ≡ out.old.items ++ concat parents.now) }
{
    for parent in parents {
        out.extend_from_slice(parent.as_bytes())?;
    }
    Ok(())
}

fn put_author(out: &mut Vec<u8>, author: &str) -> Result<(), AllocError>
    requires { length author.now ≤ LONGEST_AUTHOR }
    ensures { OnOk result (out.new.items ≡ out.old.items ++ sized w16 author.now) }
{
    put_short(out, author.as_bytes())
}

// A length of 16 bits, and then the bytes.
fn put_short(out: &mut Vec<u8>, bytes: &[u8]) -> Result<(), AllocError>
    requires { length bytes.now ≤ LONGEST_PATH }
    ensures { OnOk result (out.new.items ≡ out.old.items ++ sized w16 bytes.now) }
{
    out.extend_from_slice(&(bytes.len() as u16).to_be_bytes())?;
    out.extend_from_slice(bytes)
}

fn put_message(out: &mut Vec<u8>, message: &str) -> Result<(), AllocError>
    requires { length message.now ≤ LONGEST_MESSAGE }
    ensures { OnOk result (out.new.items ≡ out.old.items ++ sized w32 message.now) }
{
    out.extend_from_slice(&(message.len() as u32).to_be_bytes())?;
    out.extend_from_slice(message.as_bytes())
}

fn put_edits(out: &mut Vec<u8>, version: Version, edits: &[Edit]) -> Result<(), AllocError>
    ensures { OnOk result (out.new.items ≡ out.old.items ++ flat_map (model.edit_bytes (version_view version)) (edits_view edits.now)) }
{
    for edit in edits {
        put_edit(out, version, edit)?;
    }
    Ok(())
}

fn put_edit(out: &mut Vec<u8>, version: Version, edit: &Edit) -> Result<(), AllocError>
    ensures { OnOk result (out.new.items ≡ out.old.items ++ model.edit_bytes (version_view version) (edit_view edit.now)) }
{
    put_short(out, edit.path.as_str().as_bytes())?;
    put_change(out, version, &edit.change)
}

fn put_change(out: &mut Vec<u8>, version: Version, change: &Change) -> Result<(), AllocError>
    ensures { OnOk result (out.new.items ≡ out.old.items ++ model.change_bytes (version_view version) (change_view change.now)) }
{
    match change {
        Change::Delete => out.push(0)?,
        Change::Set {
            content,
            kind,
            size,
            copied,
        } => {
            out.extend_from_slice(&[1, kind.to_byte()])?;
            out.extend_from_slice(&size.to_be_bytes())?;
            out.extend_from_slice(content.as_bytes())?;
            put_copied(out, version, copied)?;
        }
    }
    Ok(())
}

// The first version has nothing there.
fn put_copied(
    out: &mut Vec<u8>,
    version: Version,
    copied: &Option<CopySource>,
) -> Result<(), AllocError>
    ensures { OnOk result (out.new.items ≡ out.old.items ++ model.copied_bytes (version_view version) (option_map source_view copied.now)) }
{
    match version {
        Version::First => Ok(()),
        Version::Second => put_source(out, copied),
    }
}

fn put_source(out: &mut Vec<u8>, copied: &Option<CopySource>) -> Result<(), AllocError>
    ensures { OnOk result (out.new.items ≡ out.old.items ++ model.source_bytes (option_map source_view copied.now)) }
{
    match copied {
        None => {
            out.push(0)?;
            Ok(())
        }
        Some(source) => {
            out.extend_from_slice(&[1, source.parent])?;
            put_short(out, source.path.as_str().as_bytes())
        }
    }
}
