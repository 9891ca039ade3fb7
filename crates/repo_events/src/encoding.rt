//! The payloads of entries, and the frames that a journal takes. Numbers stand high byte first.
ghost use Rattle.std.specs.Prelude.{◌≡◌, ◌≤◌, ◌<◌, ◌+◌, ◌^◌, ◌∷◌, [], ◌++◌, length, take, drop, map, IfOk, OnOk};
ghost use Rattle.std.specs.List.{concat};
ghost use Rattle.std.specs.Option.{option_copied};
ghost use Rattle.std.specs.Int.{w8, w32, to_be_bytes};
ghost use Rattle.byte_fields.specs.Bytes.{sized};
ghost use Rattle.changeset_model.specs.Changeset.{spelling};
ghost use Rattle.bonsai.specs.Encodings.{encodings};
ghost use Rattle.history_model.specs.History as model;
ghost use Rattle.history_model.specs.History.{changesets_in};
ghost use Rattle.history_model.specs.Journal.{framed, landing_mark, moment_bytes, optional_id, payload};
ghost use Rattle.repo_events.specs.Entries.{caller_bytes, landing_head, body_of, parts_in};

use crate::body::{Body, Landing, Move};
use crate::limits::FRAME;
use crate::mark;
use crate::spelled::Spelled;
use bonsai::encode_into;
use object_id::Id;
use repo_path::BookName;
use std::alloc::{AllocError, Global};

// The bytes of a length before a payload.
const LENGTH: usize = 4;

// What stands before a content's bytes in its frame: the length of the payload, and a mark.
const CONTENT_HEAD: usize = LENGTH + 1;

/// The payload of an entry behind its length in 32 bits, and a closed gate after it. `content` has the bytes of a
/// content, and isn't looked at for other entries. A payload has fewer than 4,294,967,296 bytes, a landing at most
/// 65,535 new changesets, and a whole at most 65,535 parts.
pub fn encode_entry(alloc: Global, body: &Body, content: &[u8]) -> Result<Vec<u8>, AllocError>
    requires short { length (payload (body_of body.now) content.now) < 2 ^ 32 }
    requires counted { length (changesets_in (body_of body.now)) < 2 ^ 16 }
    requires parted { length (parts_in (body_of body.now)) < 2 ^ 16 }
    ensures { IfOk result (λ frame. frame.items ≡ framed (payload (body_of body.now) content.now)) }
{
    let length = stored_length(body, content);
    let mut frame = Vec::with_capacity(alloc, length as usize + FRAME)?;
    frame.extend_from_slice(&length.to_be_bytes())?;
    put_payload(&mut frame, body, content)?;
    frame.push(0)?;
    Ok(frame)
}

/// The frame of a payload that is encoded already, as an upload's is.
pub fn frame_payload(alloc: Global, payload: &[u8]) -> Result<Vec<u8>, AllocError>
    requires { length payload.now < 2 ^ 32 }
    ensures { IfOk result (λ frame. frame.items ≡ framed payload.now) }
{
    let mut frame = Vec::with_capacity(alloc, payload.len() + FRAME)?;
    frame.extend_from_slice(&(payload.len() as u32).to_be_bytes())?;
    frame.extend_from_slice(payload)?;
    frame.push(0)?;
    Ok(frame)
}

/// The frame of a content's payload, made in the room of its bytes. They are moved within it, and copied elsewhere only where
/// it has no place for six bytes more. A content has fewer than 4,294,967,295 bytes.
pub fn content_frame(bytes: Vec<u8>) -> Result<Vec<u8>, AllocError>
    requires { length bytes.items + 1 < 2 ^ 32 }
    ensures { IfOk result (λ frame. frame.items ≡ framed (0x42 ∷ bytes.items)) }
{
    let count = bytes.len();
    let mut frame = bytes;
    // The last of these is the closed gate.
    frame.extend_from_slice(&[0; CONTENT_HEAD + 1])?;
    frame.copy_within(0..count, CONTENT_HEAD);
    frame[LENGTH] = mark::CONTENT;
    put_length(&mut frame, 0, count as u32 + 1);
    Ok(frame)
}

// Writes a length over what stands at a place.
fn put_length(bytes: &mut Vec<u8>, at: usize, count: u32)
    requires { at + LENGTH ≤ length bytes.old.items }
    ensures { bytes.new.items ≡ take at bytes.old.items ++ to_be_bytes w32 count ++ drop (at + LENGTH) bytes.old.items }
{
    bytes[at..at + LENGTH].copy_from_slice(&count.to_be_bytes());
}

// The length in bytes of the payload. A content's is that of its bytes, behind a mark.
fn stored_length(body: &Body, content: &[u8]) -> u32
    requires short { length (payload (body_of body.now) content.now) < 2 ^ 32 }
    requires counted { length (changesets_in (body_of body.now)) < 2 ^ 16 }
    ensures { result ≡ length (payload (body_of body.now) content.now) }
{
    match body {
        Body::Content { id: _, length: _ } => 1 + content.len() as u32,
        Body::Whole { .. }
        | Body::Change(_)
        | Body::Book(_)
        | Body::Land(_)
        | Body::Policy { .. } => body.payload_length() as u32,
    }
}

fn put_payload(out: &mut Vec<u8>, body: &Body, content: &[u8]) -> Result<(), AllocError>
    requires counted { length (changesets_in (body_of body.now)) < 2 ^ 16 }
    requires parted { length (parts_in (body_of body.now)) < 2 ^ 16 }
    ensures { OnOk result (out.new.items ≡ out.old.items ++ payload (body_of body.now) content.now) }
{
    match body {
        Body::Content { id: _, length: _ } => put_content(out, content),
        Body::Change(commit) => encode_into(out, commit.changeset()),
        Body::Book(movement) => put_move(out, movement),
        Body::Land(landing) => put_landing(out, landing),
        Body::Whole { id, length, parts } => put_whole(out, id, *length, parts.as_slice()),
        Body::Policy { caller, text } => put_policy(out, caller, text.as_slice()),
    }
}

fn put_whole(out: &mut Vec<u8>, id: &Id, total: u64, parts: &[Id]) -> Result<(), AllocError>
    requires { length parts.now < 2 ^ 16 }
    ensures { OnOk result (out.new.items ≡ out.old.items ++ payload (model.Whole id.now total parts.now) []) }
{
    out.push(mark::WHOLE)?;
    out.extend_from_slice(id.as_bytes())?;
    out.extend_from_slice(&total.to_be_bytes())?;
    out.extend_from_slice(&(parts.len() as u16).to_be_bytes())?;
    put_ids(out, parts)
}

fn put_ids(out: &mut Vec<u8>, ids: &[Id]) -> Result<(), AllocError>
    ensures { OnOk result (out.new.items ≡ out.old.items ++ concat ids.now) }
{
    for id in ids {
        out.extend_from_slice(id.as_bytes())?;
    }
    Ok(())
}

fn put_policy(out: &mut Vec<u8>, caller: &BookName, text: &[u8]) -> Result<(), AllocError>
    ensures { OnOk result (out.new.items ≡ out.old.items ++ payload (model.Policy caller.now text.now) []) }
{
    out.push(mark::CALLER)?;
    put_name(out, caller)?;
    out.push(mark::POLICY)?;
    out.extend_from_slice(text)
}

// A caller who is told, before the rest.
fn put_caller(out: &mut Vec<u8>, caller: Option<&BookName>) -> Result<(), AllocError>
    ensures { OnOk result (out.new.items ≡ out.old.items ++ caller_bytes (option_copied caller.entry)) }
{
    match caller {
        None => Ok(()),
        Some(name) => {
            out.push(mark::CALLER)?;
            put_name(out, name)
        }
    }
}

fn put_content(out: &mut Vec<u8>, content: &[u8]) -> Result<(), AllocError>
    ensures { OnOk result (out.new.items ≡ out.old.items ++ 0x42 ∷ content.now) }
{
    out.push(mark::CONTENT)?;
    out.extend_from_slice(content)
}

fn put_move(out: &mut Vec<u8>, movement: &Move) -> Result<(), AllocError>
    ensures { OnOk result (out.new.items ≡ out.old.items ++ payload (body_of (Body.Book movement.now)) []) }
{
    put_caller(out, movement.caller.as_ref())?;
    out.push(mark::MOVE)?;
    put_name(out, &movement.name)?;
    put_optional(out, movement.from)?;
    put_optional(out, movement.to)
}

fn put_name(out: &mut Vec<u8>, name: &BookName) -> Result<(), AllocError>
    ensures { OnOk result (out.new.items ≡ out.old.items ++ sized w8 name.now) }
{
    let text = name.as_str();
    out.push(text.len() as u8)?;
    out.extend_from_slice(text.as_bytes())
}

// An id that may be absent, with its flag.
fn put_optional(out: &mut Vec<u8>, id: Option<Id>) -> Result<(), AllocError>
    ensures { OnOk result (out.new.items ≡ out.old.items ++ optional_id id) }
{
    match id {
        None => out.push(0)?,
        Some(id) => {
            out.push(1)?;
            out.extend_from_slice(id.as_bytes())?;
        }
    }
    Ok(())
}

fn put_landing(out: &mut Vec<u8>, landing: &Landing) -> Result<(), AllocError>
    requires { length landing.now.new.items < 2 ^ 16 }
    ensures { OnOk result (out.new.items ≡ out.old.items ++ payload (body_of (Body.Land landing.now)) []) }
{
    let count = landing.new.len() as u16;
    let head = LandingHead {
        caller: landing.caller.as_ref(),
        name: &landing.name,
        old: landing.old,
        draft: landing.draft,
        moment: landing.moment,
    };
    put_landing_head(out, &head, count)?;
    put_commits(out, landing.new.as_slice())
}

/// What a landing tells beside its changesets.
#[derive(Clone, Copy)]
pub struct LandingHead<'a> {
    /// Who lands it, told where a policy is held.
    pub caller: Option<&'a BookName>,
    pub name: &'a BookName,
    /// The head before.
    pub old: Id,
    pub draft: Id,
    /// When it is landed, told where a changeset is of the second version.
    pub moment: Option<u64>,
}

/// What a landing's payload has before its changesets, of which there are so many.
pub(crate) fn put_landing_head(
    out: &mut Vec<u8>,
    head: &LandingHead<'_>,
    count: u16,
) -> Result<(), AllocError>
    ensures { OnOk result (out.new.items ≡ out.old.items ++ landing_head (option_copied head.now.caller) head.now.name.now head.now.old head.now.draft head.now.moment count) }
{
    put_caller(out, head.caller)?;
    put_landing_mark(out, head.moment)?;
    put_name(out, head.name)?;
    out.extend_from_slice(head.old.as_bytes())?;
    out.extend_from_slice(head.draft.as_bytes())?;
    put_moment(out, head.moment)?;
    out.extend_from_slice(&count.to_be_bytes())
}

fn put_landing_mark(out: &mut Vec<u8>, moment: Option<u64>) -> Result<(), AllocError>
    ensures { OnOk result (out.new.items ≡ out.old.items ++ landing_mark moment ∷ []) }
{
    let mark = match moment {
        None => mark::LANDING,
        Some(_) => mark::DATED_LANDING,
    };
    out.push(mark)?;
    Ok(())
}

fn put_moment(out: &mut Vec<u8>, moment: Option<u64>) -> Result<(), AllocError>
    ensures { OnOk result (out.new.items ≡ out.old.items ++ moment_bytes moment) }
{
    match moment {
        None => Ok(()),
        Some(moment) => out.extend_from_slice(&moment.to_be_bytes()),
    }
}

// The spellings, each behind its length.
fn put_commits(out: &mut Vec<u8>, commits: &[Spelled]) -> Result<(), AllocError>
    ensures { OnOk result (out.new.items ≡ out.old.items ++ encodings commits.now) }
{
    for commit in commits {
        put_sized(out, commit)?;
    }
    Ok(())
}

fn put_sized(out: &mut Vec<u8>, commit: &Spelled) -> Result<(), AllocError>
    ensures { OnOk result (out.new.items ≡ out.old.items ++ sized w32 (spelling commit.now)) }
{
    let length = commit.encoded_length() as u32;
    out.extend_from_slice(&length.to_be_bytes())?;
    encode_into(out, commit.changeset())
}
