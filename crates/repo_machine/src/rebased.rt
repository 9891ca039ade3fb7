//! A planned landing with its new changesets and its record. No machine is looked at here.
ghost use Rattle.std.specs.Prelude.{◌≡◌, ◌≤◌, ◌<◌, ◌&&◌, ℕ, true, List, Option, length, map, IfOk, IfErr, None, Some};
ghost use Rattle.std.specs.Option.{option_copied};
ghost use Rattle.byte_fields.specs.Bytes.{is_bytes};
ghost use Rattle.changeset_model.specs.Changeset.{id_of};
ghost use Rattle.changeset_store.specs.Shared.{values};
ghost use Rattle.history_model.specs.Bookmark.{is_name};
ghost use Rattle.history_model.specs.History.{Entry, Land};
ghost use Rattle.history_model.specs.Journal.{payload_len, most_payload};
ghost use Rattle.history_model.specs.Pushrebase.{rewrite, moment_of};
ghost use Rattle.reply_model.specs.Reply.{most_stack, Landed as LandedSo, LandDraft, denial, is_ask};
ghost use Rattle.reply_model.specs.After.{Refuses};
ghost use Rattle.held_policy.specs.Places.{denial_at};
ghost use Rattle.repo_calls.specs.Calls.{refused};
ghost use Rattle.repo_machine.specs.Judged.{Frames};
ghost use Rattle.repo_machine.specs.Made.{landing_made, HasNumbers};
ghost use Rattle.repo_machine.specs.Plans.{rebased_of, landing_in, told_where, frame_size};

use crate::frame::Frame;
use crate::judged::{Judged, LandMade, Made};
use crate::plan::Plan;
use crate::records::LandRecord;
use bonsai::Commit;
use held_policy::DeniedAt;
use object_id::Id;
use rebase_stack::{rebase, rebase_into, rebased_length};
use repo_calls::{DeniedPlace, Granted, Landed, Refusal};
use repo_events::{FRAME, LandingHead, MOST_PAYLOAD, begin_landing, landing_length};
use repo_path::{BookName, RepoPath};
use std::alloc::{AllocError, Global};
use std::marker::Model;
use std::sync::Arc;

/// A planned landing whose stack was put onto the planned head, with the record of its entry and all that the entry
/// needs, so that it is judged and entered without memory.
#[derive(Drop)]
pub struct Rebased {
    landing: LandMade,
    // Who asks, whom the entry tells where a policy is held.
    caller: BookName,
    // The moment that was asked for.
    asked: u64,
    ids: Vec<Id>,
    // Its own, so that one that isn't allowed can be taken out.
    touched: Vec<RepoPath>,
    // The length of the payload that tells no caller, and of the one that tells this one.
    length: u64,
    told_length: u64,
    // The record that tells the caller. The one that tells none is its end, once its own length stands before it. If that one's
    // payload is too long there is no record.
    frame: Vec<u8>,
}

impl Model for Rebased {
    ghost use Rattle.std.specs.Arc.{arc_value};
    ghost use Rattle.changeset_store.specs.Shared.{values};
    ghost use Rattle.repo_machine.specs.Plans.{RebasedLanding, coded_rebased};
    ghost use Rattle.repo_machine.specs.Recorded.{IsRecorded};

    ghost Value = { RebasedLanding };

    ghost coded = { coded_rebased };

    ghost view = { λ r. record { name = r.landing.kept.value.name; draft = r.landing.kept.value.draft; old = r.landing.kept.value.old; new = values r.landing.new.items; touched = r.touched.items; asked = r.asked; moment = r.landing.kept.value.moment; caller = r.caller } };

    ghost invariant = { λ r. IsRecorded r.landing r.caller r.ids.items r.length r.told_length r.frame.items };
}

impl Plan {
    /// Puts the stack onto the planned head at a moment, and makes the record of the landing. Each new changeset is encoded
    /// once, into the record, and is dated at the moment if it is of the second version.
    pub fn rebased(&self, alloc: Global, moment: u64) -> Result<Rebased, AllocError>
        ensures { IfOk result (λ r. r ≡ rebased_of self.now moment) }
    {
        let told = told_of(self.stack.as_slice(), moment);
        let length = self.payload_length(None, told);
        let told_length = self.payload_length(Some(&self.caller), told);
        let (new, frame) = self.recorded(alloc, moment, told, length, told_length)?;
        let ids = ids_of(alloc, new.as_slice())?;
        let touched = copies(alloc, self.touched.as_slice())?;
        Ok(Rebased {
            landing: self.landing(alloc, told, new)?,
            caller: self.caller.copy(alloc)?,
            asked: moment,
            ids,
            touched,
            length,
            told_length,
            frame,
        })
    }

    // The landing of these changesets, with memory for their numbers. It tells no caller yet.
    fn landing(
        &self,
        alloc: Global,
        told: Option<u64>,
        new: Vec<Commit>,
    ) -> Result<LandMade, AllocError>
        ensures made { IfOk result (λ made. landing_made made ≡ record { name = self.now.name; old = self.now.old; draft = self.now.draft; new = new.items; moment = told; caller = None }) }
        ensures ready { IfOk result HasNumbers }
    {
        let kept = LandRecord {
            name: self.name.copy(alloc)?,
            old: self.old,
            draft: self.draft,
            numbers: Vec::with_capacity(alloc, new.len())?,
            moment: told,
            caller: None,
        };
        Ok(LandMade {
            kept: Box::new(alloc, kept)?,
            new: shared(alloc, new)?,
        })
    }

    // What the landing tells beside its changesets.
    fn head<'a>(&'a self, caller: Option<&'a BookName>, told: Option<u64>) -> LandingHead<'a>
        ensures name { result.name.now ≡ self.now.name }
        ensures old { result.old ≡ self.now.old }
        ensures draft { result.draft ≡ self.now.draft }
        ensures moment { result.moment ≡ told }
        ensures caller { option_copied result.caller ≡ option_copied caller.entry }
    {
        LandingHead {
            caller,
            name: &self.name,
            old: self.old,
            draft: self.draft,
            moment: told,
        }
    }

    // The length in bytes of the payload of the landing, if this caller is told.
    fn payload_length(&self, caller: Option<&BookName>, told: Option<u64>) -> u64
        ensures length { (moment : ℕ) → told ≡ moment_of self.now.stack moment → result ≡ payload_len (Land (landing_in (rebased_of self.now moment) (option_copied caller.entry))) }
        ensures rules { is_name self.now.name && is_bytes 32 self.now.draft ≡ true }
        ensures caller { is_name self.now.caller ≡ true }
    {
        // They keep their rules.
        let _caller = self.caller.as_str();
        let _name = self.name.as_str();
        let _old = self.old.as_bytes();
        let _draft = self.draft.as_bytes();
        landing_length(
            &self.head(caller, told),
            rebased_length(self.stack.as_slice()),
        )
    }

    // The stack on the planned head, and the record of the landing that tells the caller, which is empty if the payload that
    // tells none is too long.
    fn recorded(
        &self,
        alloc: Global,
        moment: u64,
        told: Option<u64>,
        length: u64,
        told_length: u64,
    ) -> Result<(Vec<Commit>, Vec<u8>), AllocError>
        requires told { told ≡ moment_of self.now.stack moment }
        requires length { length ≡ payload_len (Land (landing_in (rebased_of self.now moment) None)) }
        requires caller { is_name self.now.caller ≡ true }
        requires told_length { told_length ≡ payload_len (Land (landing_in (rebased_of self.now moment) (Some self.now.caller))) }
        ensures new { IfOk result (λ r. r.0.items ≡ rewrite self.now.stack self.now.old moment) }
        ensures frame { IfOk result (λ r. length ≤ most_payload → Frames (Some (Land (landing_in (rebased_of self.now moment) (Some self.now.caller)))) r.1.items) }
    {
        let stack = self.stack.as_slice();
        if length > MOST_PAYLOAD as u64 {
            return Ok((rebase(alloc, stack, self.old, moment)?, Vec::new(alloc)));
        }
        let count = stack.len() as u16;
        let head = self.head(Some(&self.caller), told);
        let mut frame = begin_landing(alloc, &head, count, told_length as u32)?;
        let new = rebase_into(alloc, &mut frame, stack, self.old, moment)?;
        frame.push(0)?;
        Ok((new, frame))
    }
}

// The moment, if the stack has a changeset of the second version, which it dates.
fn told_of(stack: &[Arc<Commit>], moment: u64) -> Option<u64>
    ensures { result ≡ moment_of (values stack.now) moment }
{
    'stack: for commit in stack {
        if commit.changeset().version().is_second() {
            return Some(moment);
        }
    }
    None
}

fn ids_of(alloc: Global, commits: &[Commit]) -> Result<Vec<Id>, AllocError>
    ensures { IfOk result (λ ids. ids.items ≡ map id_of commits.now) }
{
    let mut ids = Vec::with_capacity(alloc, commits.len())?;
    'commits: for commit in commits {
        ids.push(commit.id())?;
    }
    Ok(ids)
}

impl Rebased {
    /// The bookmark.
    pub fn name(&self) -> &BookName
        ensures { result.now ≡ self.now.name }
    {
        &self.landing.kept.name
    }

    /// The planned head, on which the stack stands now.
    pub fn old(&self) -> Id
        ensures { result ≡ self.now.old }
    {
        self.landing.kept.old
    }

    /// The new changesets.
    pub fn new(&self) -> &[Arc<Commit>]
        ensures new { values result.now ≡ self.now.new }
        ensures few { length self.now.new ≤ most_stack }
    {
        // It keeps its rules.
        let _ = self.length;
        self.landing.new.as_slice()
    }

    /// The greatest length in bytes of the record of its entry, for which a journal is to have room before it is judged: that of
    /// the one which tells the caller, or of the one which tells none where only that one has a payload that isn't too long.
    pub fn frame_length(&self) -> usize
        ensures { result ≡ frame_size self.now }
    {
        if self.told_length <= MOST_PAYLOAD as u64 {
            return FRAME + self.told_length as usize;
        }
        if self.length <= MOST_PAYLOAD as u64 {
            return FRAME + self.length as usize;
        }
        0
    }

    /// Who asks.
    pub(crate) fn caller(&self) -> &BookName
        ensures { result.now ≡ self.now.caller }
    {
        &self.caller
    }

    /// The paths that the stack touches.
    pub(crate) fn touched(&self) -> &[RepoPath]
        ensures { result.now ≡ self.now.touched }
    {
        self.touched.as_slice()
    }

    /// The length in bytes of the payload of its entry, with the caller or without, if one may be that long.
    pub(crate) fn payload_length(&self, told: bool) -> Result<u64, Refusal>
        ensures length { IfOk result (λ n. n ≡ payload_len (Land (landing_in self.now (told_where told self.now.caller)))) }
        ensures short { IfOk result (λ n. n ≤ most_payload) }
        ensures long { IfErr result (λ e. (e ≡ Refusal.TooLarge (payload_len (Land (landing_in self.now (told_where told self.now.caller))))) × (most_payload < payload_len (Land (landing_in self.now (told_where told self.now.caller))))) }
        ensures rules { (h : List Entry) → is_ask h (LandDraft self.now.caller self.now.name self.now.draft self.now.asked) ≡ true }
    {
        // The moment has 64 bits, and the caller's name keeps its rules.
        let _asked = self.asked;
        let _caller = self.caller.as_str();
        let length = if told { self.told_length } else { self.length };
        if length > MOST_PAYLOAD as u64 {
            return Err(Refusal::TooLarge { length });
        }
        Ok(length)
    }

    // What is granted and made, if the seat `who` lands it, and the entry tells the caller or not.
    pub(crate) fn into_judged(self, who: u64, told: bool) -> Judged
        requires { payload_len (Land (landing_in self (told_where told self.caller))) ≤ most_payload }
        ensures by { result.who ≡ who }
        ensures granted { result.granted ≡ LandedSo self.old (map id_of self.new) }
        ensures made { result.made ≡ Some (Land (landing_in self (told_where told self.caller))) }
        ensures frames { Frames (Some (Land (landing_in self (told_where told self.caller)))) result.frame }
    {
        let Rebased {
            mut landing,
            caller,
            asked: _,
            ids,
            touched: _,
            length,
            told_length: _,
            frame,
        } = self;
        if told {
            landing.kept.caller = Some(caller);
            return landed(who, landing, ids, Frame::whole(frame));
        }
        let frame = Frame::untold(frame, &caller, length as u32);
        landed(who, landing, ids, frame)
    }

    // The refusal of a landing of which a path isn't allowed, which is taken out of it. It takes no memory.
    pub(crate) fn into_denied(self, denied: DeniedAt) -> Refusal
        requires { denied.at < length self.touched }
        ensures { refused result ≡ Refuses (denial (denial_at self.touched denied)) }
    {
        let mut touched = self.touched;
        let path = touched.swap_remove(denied.at);
        Refusal::Denied {
            place: DeniedPlace::Path(path),
            rule: denied.rule,
        }
    }
}

// A landing that is judged so.
fn landed(who: u64, landing: LandMade, ids: Vec<Id>, frame: Frame) -> Judged
    requires { HasNumbers landing }
    ensures { result ≡ record { who = who; granted = LandedSo landing.kept.value.old ids.items; made = Some (Land (landing_made landing)); frame = frame } }
{
    let old = landing.kept.old;
    Judged {
        who,
        granted: Granted::Landing(Landed { old, ids }),
        made: Some(Made::Land(landing)),
        frame,
    }
}

// The same changesets, shared.
fn shared(alloc: Global, commits: Vec<Commit>) -> Result<Vec<Arc<Commit>>, AllocError>
    ensures { IfOk result (λ shared. values shared.items ≡ commits.items) }
{
    let mut shared = Vec::with_capacity(alloc, commits.len())?;
    let mut rest = commits.into_iter();
    'commits: while let Some(commit) = rest.next() {
        shared.push(Arc::new(alloc, commit)?)?;
    }
    Ok(shared)
}

fn copies(alloc: Global, paths: &[RepoPath]) -> Result<Vec<RepoPath>, AllocError>
    ensures { IfOk result (λ copies. copies.items ≡ paths.now) }
{
    let mut copies = Vec::with_capacity(alloc, paths.len())?;
    'paths: for path in paths {
        copies.push(path.copy(alloc)?)?;
    }
    Ok(copies)
}
