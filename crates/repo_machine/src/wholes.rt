//! Contents that are joined. They are looked up at one history and read, and the whole is judged at that same history.
ghost use Rattle.std.specs.Prelude.{◌≡◌, ◌≤◌, ℕ, List, Some, map, is_some, length as count, IfOk, IfErr, IfSome};
ghost use Rattle.std.specs.List.{All};
ghost use Rattle.byte_fields.specs.Bytes.{Id as ModelId};
ghost use Rattle.history_model.specs.History.{Whole, content_len, is_whole, whole_parts};
ghost use Rattle.history_model.specs.Journal.{payload_len};
ghost use Rattle.reply_model.specs.Reply.{PutWhole, ids_in as ids_of, is_parts_len, judge};
ghost use Rattle.reply_model.specs.After.{Joins};
ghost use Rattle.reply_model.specs.Legal.{IsLegal};
ghost use Rattle.repo_events.specs.Entries.{body_of};
ghost use Rattle.repo_calls.specs.Refusing.{Gives, IsRefusal};
ghost use Rattle.repo_machine.specs.Asked.{RefusesCall};
ghost use Rattle.repo_machine.specs.Entering.{Judges};
ghost use Rattle.repo_machine.specs.Indexes.{StandsAt};
ghost use Rattle.repo_machine.specs.Judged.{Frames};
ghost use Rattle.repo_machine.specs.Made.{IsShared, whole_made};
ghost use Rattle.repo_machine.specs.Wholes.{pieces_judged, IsWholeOf};

use crate::found::Joined;
use crate::judged::{Judged, Made, WholeMade};
use crate::machine::Machine;
use crate::records::WholeRecord;
use content_table::Part;
use object_id::Id;
use repo_calls::{Granted, Refusal};
use repo_events::{Body, MOST_PAYLOAD, encode_entry};
use std::alloc::{AllocError, Global};
use std::sync::Arc;

/// The most contents that are joined to one.
const MOST_PARTS: usize = 64;

impl Machine {
    /// The contents that are to be joined, by their ids of 32 bytes each, with where their bytes stand. It refuses all that is
    /// refused before they are read.
    pub fn judge_pieces(&self, alloc: Global, body: &[u8]) -> Result<Vec<Part>, Refusal>
        ensures judged { Gives (λ parts. map (λ p. p.id) parts.items) (pieces_judged self.now.header self.now.history body.now) result }
        ensures refuses { IfErr result (RefusesCall self.now.header self.now.history (Joins body.now)) }
        ensures places { IfOk result (λ parts. All (λ p. StandsAt self.now.history p.id p.place) parts.items) }
        ensures legal { IsLegal self.now.header self.now.history }
    {
        self.check_up()?;
        if !is_parts_length(body.len()) {
            return Err(Refusal::BadParts {
                length: body.len() as u64,
            });
        }
        if !self.version.is_second() {
            return Err(Refusal::OldFormat);
        }
        let ids = ids_in(alloc, body)?;
        self.contents.pieces(alloc, ids.as_slice())
    }

    /// Judges the whole of contents that were read, for the seat `who`, and makes room for it and for one fault after it.
    pub fn judge_whole(&mut self, alloc: Global, who: u64, whole: Joined) -> Result<Judged, Refusal>
        // Bytes of these contents were read that have this id and this length.
        requires read { (body : List ℕ) × (pieces : List (List ℕ)) × IsWholeOf self.old.header self.old.history body pieces whole }
        ensures ok { (body : List ℕ) (pieces : List (List ℕ)) → IsWholeOf self.old.header self.old.history body pieces whole →
            IfOk result (Judges self.old.header self.old.history self.new.room who (PutWhole body pieces)) }
        ensures err { (body : List ℕ) (pieces : List (List ℕ)) → IsWholeOf self.old.header self.old.history body pieces whole →
            IfErr result (IsRefusal (judge self.old.header self.old.history (PutWhole body pieces))) }
        ensures header { self.new.header ≡ self.old.header }
        ensures history { self.new.history ≡ self.old.history }
        ensures keeps { self.old.room.entries ≤ self.new.room.entries }
        ensures legal { IsLegal self.old.header self.old.history }
    {
        self.check_up()?;
        let Joined { parts, id, length } = whole;
        let granted = Granted::Whole { id, size: length };
        if self.contents.length(&id).is_some() {
            return Ok(Judged::unchanged(alloc, who, granted));
        }
        let (made, frame) = framed_whole(alloc, id, length, parts)?;
        self.make_framed(alloc, who, granted, Made::Whole(made), frame)
    }

    /// How many bytes the content with this id has, joined or not.
    pub fn content_length(&self, id: &Id) -> Option<u64>
        ensures { result ≡ content_len self.now.history id.now }
    {
        self.contents.length(id)
    }

    /// The contents of which the one with this id was joined, with where their bytes stand. None where none was joined under
    /// it.
    pub fn joined_pieces(&self, alloc: Global, id: &Id) -> Result<Option<Vec<Part>>, AllocError>
        ensures joined { IfOk result (λ parts. is_some parts ≡ is_whole self.now.history id.now) }
        ensures parts { IfOk result (λ parts. IfSome parts (λ parts. map (λ p. p.id) parts.items ≡ whole_parts self.now.history id.now)) }
        ensures places { IfOk result (λ parts. IfSome parts (λ parts. All (λ p. StandsAt self.now.history p.id p.place) parts.items)) }
    {
        let Some(parts) = self.contents.joined(id) else {
            return Ok(None);
        };
        Ok(Some(self.contents.placed(alloc, parts)?))
    }
}

// Whether 1 to 64 ids have so many bytes.
fn is_parts_length(length: usize) -> bool
    ensures { result ≡ is_parts_len length }
{
    length % 32 == 0 && length >= 32 && length <= 32 * MOST_PARTS
}

// The ids of 32 bytes that stand one behind another.
fn ids_in(alloc: Global, body: &[u8]) -> Result<Vec<Id>, AllocError>
    ensures { IfOk result (λ ids. ids.items ≡ ids_of body.now) }
{
    let mut ids = Vec::with_capacity(alloc, body.len() / 32)?;
    let mut rest = body;
    'ids: while let Some((id, after)) = rest.split_first_chunk::<32>() {
        ids.push(Id::from_bytes(*id))?;
        rest = after;
    }
    Ok(ids)
}

// What is entered of a whole, with its record.
fn framed_whole(
    alloc: Global,
    id: Id,
    length: u64,
    parts: Vec<Id>,
) -> Result<(WholeMade, Vec<u8>), AllocError>
    requires short { payload_len (Whole id length parts.items) ≤ MOST_PAYLOAD }
    requires few { count parts.items ≤ MOST_PARTS }
    ensures made { IfOk result (λ framed. whole_made framed.0 ≡ Whole id length parts.items) }
    ensures shared { IfOk result (λ framed. IsShared framed.0) }
    ensures frames { IfOk result (λ framed. Frames (Some (Whole id length parts.items)) framed.1.items) }
{
    let body = Body::Whole { id, length, parts };
    let frame = encode_entry(alloc, &body, &[])?;
    let made = whole_of(alloc, body)?;
    Ok((made, frame))
}

// What is entered of a whole.
fn whole_of(alloc: Global, body: Body) -> Result<WholeMade, AllocError>
    requires { (id : ModelId) × (n : ℕ) × (parts : List ModelId) × (body_of body ≡ Whole id n parts) }
    ensures made { IfOk result (λ made. whole_made made ≡ body_of body) }
    ensures shared { IfOk result IsShared }
{
    match body {
        Body::Whole { id, length, parts } => {
            let parts = Arc::new(alloc, parts)?;
            let shared = Arc::try_clone(&parts)?;
            let kept = Box::new(alloc, WholeRecord { id, length, parts })?;
            Ok(WholeMade { kept, shared })
        }
        _ => unreachable!(),
    }
}
