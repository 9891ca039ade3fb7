//! Changes that are made ready where no machine is at hand.
ghost use Rattle.std.specs.Prelude.{◌≡◌, ◌≢◌, ◌≤◌, true, List, length, Ok, Some, IfOk, IfErr, IfSome, IfNone};
ghost use Rattle.std.specs.Arc.{arc_value};
ghost use Rattle.sha2.specs.Sha256.{sha256};
ghost use Rattle.byte_fields.specs.Bytes.{are_bytes};
ghost use Rattle.changeset_model.specs.Changeset.{spelling};
ghost use Rattle.changeset_model.specs.Decoding.{decoded};
ghost use Rattle.history_model.specs.History.{Content, Entry};
ghost use Rattle.history_model.specs.Journal.{Header};
ghost use Rattle.reply_model.specs.Reply.{PutContent, PutChangeset};
ghost use Rattle.reply_model.specs.After.{Asks, Joins};
ghost use Rattle.reply_model.specs.Legal.{IsLegal};
ghost use Rattle.repo_calls.specs.Calls.{call_seen};
ghost use Rattle.repo_machine.specs.Asked.{JudgesCall, RefusesCall};
ghost use Rattle.repo_machine.specs.Found.{IsFound, IsWanted, IsWantedBy, IsWantedOf};
ghost use Rattle.repo_machine.specs.Faults.{fault_refusal};
ghost use Rattle.repo_machine.specs.Judged.{Frames};
ghost use Rattle.repo_machine.specs.Prepared.{IsPrepared, IsPreparedFor, IsReadyChangeset, IsReadyTo, asked_by};

use crate::found::Found;
use crate::judged::Judged;
use crate::machine::Machine;
use crate::policies::{ReadText, read_policy};
use bonsai::{Commit, DecodeFault, MOST_CONTENT};
use object_id::Id;
use repo_calls::{Ask, Refusal};
use repo_events::{Body, encode_entry, frame_payload};
use std::alloc::{AllocError, Global};
use std::sync::Arc;

/// A changeset with the record that would store it.
#[derive(Drop)]
pub(crate) struct FramedChangeset {
    pub(crate) commit: Arc<Commit>,
    pub(crate) frame: Vec<u8>,
}

/// What is ready of a change.
#[derive(Drop)]
pub(crate) enum Ready {
    /// An upload that is refused wherever the disk hasn't failed.
    Refused(Refusal),
    /// A content's id, and the record that would store it.
    Content { id: Id, frame: Vec<u8> },
    Changeset(FramedChangeset),
    /// A policy's text, which was read.
    Policy(ReadText),
    /// A move, a landing, or contents that are to be joined, which are judged as they are asked for.
    Asked,
}

/// A change, and what is ready of it: an upload is hashed, decoded and put into its record, or it is known to be refused, so
/// that a machine judges it without that work.
#[derive(Drop)]
pub struct Prepared<'a> {
    pub(crate) ask: &'a Ask<'a>,
    pub(crate) ready: Ready,
}

/// What is to be found for a change before it is judged.
#[derive(Clone, Copy)]
pub enum Wanted<'a> {
    /// Nothing: at each history it may be judged without.
    Nothing,
    /// The bytes of contents, one behind another. These are the contents' ids, so too.
    Joined(&'a [u8]),
    /// The least path that a changeset with two parents leaves unresolved. Nothing while one of them isn't known.
    Unresolved(&'a Commit),
}

impl Prepared<'_> {
    /// What is to be found for it.
    pub fn wants(&self) -> Wanted<'_>
        ensures { IsWanted self.now result }
    {
        match *self.ask {
            Ask::PutWhole(body) => {
                keep_bytes(body);
                Wanted::Joined(body)
            }
            Ask::PutContent(_)
            | Ask::PutChangeset(_)
            | Ask::SetBookmark { .. }
            | Ask::Land { .. }
            | Ask::SetPolicy { .. } => self.ready.wants(),
        }
    }
}

impl Ready {
    // What is to be found for what isn't joined.
    fn wants(&self) -> Wanted<'_>
        ensures { IsWantedBy self.now result }
    {
        match self {
            Ready::Changeset(framed) => framed.wants(),
            Ready::Refused(_) | Ready::Content { .. } | Ready::Policy(_) | Ready::Asked => {
                Wanted::Nothing
            }
        }
    }
}

impl FramedChangeset {
    // What is to be found for it.
    fn wants(&self) -> Wanted<'_>
        ensures { IsWantedOf (arc_value self.now.commit) result }
    {
        let commit: &Commit = &self.commit;
        if commit.changeset().parents().len() > 1 {
            Wanted::Unresolved(commit)
        } else {
            Wanted::Nothing
        }
    }
}

impl Machine {
    /// Judges a change of which this is ready, with what was found for it, as `judge` does. No upload is hashed, decoded or
    /// encoded here, and no policy is read.
    pub fn judge_prepared(
        &mut self,
        alloc: Global,
        who: u64,
        prepared: Prepared<'_>,
        found: Found,
    ) -> Result<Judged, Refusal>
        requires prepared { IsPrepared prepared }
        requires found { IsFound self.old.header self.old.history prepared found }
        ensures ok { IfOk result (JudgesCall self.old.header self.old.history self.new.room who (asked_by prepared.entry)) }
        ensures err { IfErr result (RefusesCall self.old.header self.old.history (asked_by prepared.entry)) }
        ensures header { self.new.header ≡ self.old.header }
        ensures history { self.new.history ≡ self.old.history }
        ensures keeps { self.old.room.entries ≤ self.new.room.entries }
        ensures legal { IsLegal self.old.header self.old.history }
    {
        let Prepared { ask, ready } = prepared;
        match *ask {
            Ask::PutContent(bytes) => match ready {
                Ready::Refused(refusal) => self.refuse(refusal),
                Ready::Content { id, frame } => {
                    keep_bytes(bytes);
                    self.judge_content(alloc, who, id, bytes.len() as u32, frame)
                }
                _ => unreachable!(),
            },
            Ask::PutChangeset(_) => match ready {
                Ready::Refused(refusal) => self.refuse(refusal),
                Ready::Changeset(framed) => self.judge_changeset(alloc, who, framed, found.left()),
                _ => unreachable!(),
            },
            Ask::PutWhole(_) => match found {
                Found::Joined(whole) => self.judge_whole(alloc, who, whole),
                Found::Nothing | Found::Unresolved(_) => unreachable!(),
            },
            Ask::SetBookmark {
                caller,
                name,
                from,
                to,
            } => self.judge_bookmark(alloc, who, caller, name, from, to),
            Ask::Land {
                caller,
                name,
                draft,
                moment,
            } => self.judge_landing(alloc, who, caller, name, draft, moment),
            Ask::SetPolicy { caller, text } => match ready {
                Ready::Refused(refusal) => self.refuse(refusal),
                Ready::Policy(read) => self.judge_policy(alloc, who, caller, text, read),
                _ => unreachable!(),
            },
        }
    }
}

// Bytes are below 256.
pub(crate) fn keep_bytes(bytes: &[u8])
    ensures { are_bytes bytes.now ≡ true }
{
    let _bytes = bytes;
}

/// Makes a change ready: all of its work that needs no machine. A content's bytes are copied once, into its record.
pub fn prepare<'a>(alloc: Global, ask: &'a Ask<'a>) -> Result<Prepared<'a>, AllocError>
    ensures { IfOk result (IsPreparedFor (call_seen ask.now)) }
{
    let ready = match *ask {
        Ask::PutContent(bytes) => ready_content(alloc, bytes)?,
        Ask::PutChangeset(bytes) => ready_changeset(alloc, bytes)?,
        Ask::SetPolicy { caller, text } => Ready::Policy(read_policy(alloc, caller, text)?),
        Ask::PutWhole(_) | Ask::SetBookmark { .. } | Ask::Land { .. } => Ready::Asked,
    };
    Ok(Prepared { ask, ready })
}

fn ready_content(alloc: Global, bytes: &[u8]) -> Result<Ready, AllocError>
    ensures { IfOk result (IsReadyTo (Asks (PutContent bytes.now))) }
{
    let length = bytes.len() as u64;
    if length > MOST_CONTENT {
        return Ok(Ready::Refused(Refusal::TooLong { length }));
    }
    let id = Id::of(bytes);
    let frame = content_frame(alloc, id, bytes)?;
    Ok(Ready::Content { id, frame })
}

// The record of a content of at most 1,048,576 bytes.
fn content_frame(alloc: Global, id: Id, bytes: &[u8]) -> Result<Vec<u8>, AllocError>
    requires id { id ≡ sha256 bytes.now }
    requires short { length bytes.now ≤ MOST_CONTENT }
    ensures { IfOk result (λ frame. Frames (Some (Content id (length bytes.now))) frame.items) }
{
    let length = bytes.len() as u64;
    encode_entry(alloc, &Body::Content { id, length }, bytes)
}

fn ready_changeset(alloc: Global, bytes: &[u8]) -> Result<Ready, AllocError>
    ensures { IfOk result (IsReadyTo (Asks (PutChangeset bytes.now))) }
{
    match Commit::decode(alloc, bytes) {
        Ok(commit) => Ok(Ready::Changeset(framed_changeset(alloc, commit, bytes)?)),
        Err(fault) => Ok(Ready::Refused(refusal_of(fault)?)),
    }
}

// A changeset that these bytes spell, with their record.
fn framed_changeset(
    alloc: Global,
    commit: Commit,
    bytes: &[u8],
) -> Result<FramedChangeset, AllocError>
    requires spelled { bytes.now ≡ spelling commit }
    requires decoded { decoded (spelling commit) ≡ Ok commit }
    ensures changeset { IfOk result (λ framed. arc_value framed.commit ≡ commit) }
    ensures ready { IfOk result (λ framed. IsReadyChangeset (arc_value framed.commit) framed.frame.items) }
{
    let frame = frame_payload(alloc, bytes)?;
    let commit = Arc::new(alloc, commit)?;
    Ok(FramedChangeset { commit, frame })
}

// What is wrong with an upload's bytes, unless memory ran out.
fn refusal_of(fault: DecodeFault) -> Result<Refusal, AllocError>
    ensures same { IfOk result (λ refusal. refusal ≡ fault_refusal fault) }
    ensures known { IfOk result (λ refusal. fault ≢ DecodeFault.Memory) }
{
    match fault {
        DecodeFault::TooLong { length } => Ok(Refusal::TooLong {
            length: length as u64,
        }),
        DecodeFault::BadEncoding { at } => Ok(Refusal::BadEncoding { at: at as u64 }),
        DecodeFault::SelfConflict { short, long } => Ok(Refusal::SelfConflict { short, long }),
        DecodeFault::Memory => Err(AllocError),
    }
}
