//! The entry of one payload.
ghost use Rattle.std.specs.Prelude.{◌≡◌, ◌↔◌, ◌+◌, ◌++◌, ◌∷◌, ℕ, List, [], true, false, length, None, Some, Ok, Err, IfOk, OnOk, OnErr, IsTrue, IsSome, unwrap_or};
ghost use Rattle.std.specs.List.{AllByRecursion};
ghost use Rattle.std.specs.Option.{option_copied};
ghost use Rattle.sha2.specs.Sha256.{sha256};
ghost use Rattle.disk_model.specs.Meaning.{IsLong};
ghost use Rattle.disk_model.specs.Calls.{Looked};
ghost use Rattle.changeset_model.specs.Changeset.{spelling};
ghost use Rattle.changeset_model.specs.Decoding.{decoded};
ghost use Rattle.history_model.specs.History as model;
ghost use Rattle.history_model.specs.History.{Book, Land, Policy, is_known, known, stored, unnumbered};
ghost use Rattle.history_model.specs.Journal.{framed, is_header, payload as payload_of, size, IsPayload};
ghost use Rattle.history_model.specs.Payload.{payload_body};
ghost use Rattle.reply_model.specs.Legal.{IsLegal};
ghost use Rattle.reply_model.specs.Opening.{nobody};
ghost use Rattle.reply_model.specs.Reply.{PutContent, PutChangeset, SetBookmark, LandDraft, SetPolicy, unresolved_of};
ghost use Rattle.manifest_store.specs.Manifests.{AreManifests};
ghost use Rattle.repo_events.specs.Entries.{body_of, landing_of, move_of};
ghost use Rattle.repo_machine.specs.Entering.{IsJudgedHere};
ghost use Rattle.repo_machine.specs.Held.{HasRoom};
ghost use Rattle.repo_machine.specs.Judged.{Frames};
ghost use Rattle.recovery.specs.Entering.{asked_entry, Comes, Enters, Replays};
ghost use Rattle.recovery.specs.ReplayFaults.{is_read_fault};
ghost use Rattle.recovery.specs.Settling.{Spares};

use crate::replay_fault::ReplayFault;
use crate::wholes::enter_whole;
use blob_disk::Disk;
use bonsai::{Changeset, Commit, MOST_CONTENT};
use manifest_store::ManifestStore;
use object_id::Id;
use repo_events::{Body, Landing, Move, decode_payload};
use repo_machine::{Judged, Machine};
use repo_path::{BookName, NameFault, RepoPath};
use settled_merge::{derive_parents, left_unresolved};
use std::alloc::{AllocError, Global};

/// The seat of entries that are read from a file.
pub(crate) const NO_SEAT: u64 = 0;

/// Enters what a payload stands for, if it is the entry that comes next in a journal. Nothing is entered otherwise.
/// The parts of a whole are read from the disk, where the records before it stand. Before a changeset with two parents is
/// judged, what their pasts lack of manifests is derived, also where nothing is entered then.
pub fn enter_payload<D: Disk>(
    alloc: Global,
    disk: &mut D,
    machine: &mut Machine,
    manifests: &mut ManifestStore,
    payload: &[u8],
) -> Result<(), ReplayFault>
    requires limits { IsTrue (is_header machine.old.header) }
    requires legal { IsLegal machine.old.header machine.old.history }
    requires stored { machine.old.history ≡ stored machine.old.history }
    requires manifests { AreManifests (known machine.old.history) manifests.old }
    requires long { IsLong (D.meaning disk.old).reads (size machine.old.history) }
    ensures ok { OnOk result ((body : model.Body) × Comes (D.meaning disk.old) machine.old.header machine.old.history payload.now (Some body) × (machine.new.history ≡ machine.old.history ++ unnumbered body ∷ [])) }
    ensures bad { result ≡ Err ReplayFault.BadPayload → Comes (D.meaning disk.old) machine.old.header machine.old.history payload.now None }
    ensures err { OnErr result (machine.new.history ≡ machine.old.history) }
    ensures size { OnOk result (size machine.new.history ≡ size machine.old.history + 5 + length payload.now) }
    ensures header { machine.new.header ≡ machine.old.header }
    ensures legal { IsLegal machine.new.header machine.new.history }
    ensures stored { machine.new.history ≡ stored machine.new.history }
    ensures manifests { AreManifests (known machine.new.history) manifests.new }

    // It answers `DiskFault` only where a call of the disk failed, and a crash leaves nothing else than before.
    ensures looked { Looked (D.meaning disk.old) (D.meaning disk.new) }
    ensures spares { Spares (D.meaning disk.old) (D.meaning disk.new) (is_read_fault result) }
    ensures quiet { IsSome (D.meaning disk.old).quiet → is_read_fault result ≡ false }
{
    let body = decode_payload(alloc, payload)?;
    enter_body(alloc, disk, machine, manifests, body, payload)
}

// Enters what was decoded of a payload, if it is the entry that comes next.
fn enter_body<D: Disk>(
    alloc: Global,
    disk: &mut D,
    machine: &mut Machine,
    manifests: &mut ManifestStore,
    body: Body,
    payload: &[u8],
) -> Result<(), ReplayFault>
    requires decoded { payload_body payload.now ≡ Ok (body_of body) }
    requires spelled { IsPayload (body_of body) payload.now }
    requires limits { IsTrue (is_header machine.old.header) }
    requires legal { IsLegal machine.old.header machine.old.history }
    requires manifests { AreManifests (known machine.old.history) manifests.old }
    requires long { IsLong (D.meaning disk.old).reads (size machine.old.history) }
    ensures replays { Replays (D.meaning disk.old) machine.old.header machine.old.history payload.now result machine.new.history }
    ensures header { machine.new.header ≡ machine.old.header }
    ensures legal { IsLegal machine.new.header machine.new.history }
    // What is entered isn't derived yet.
    ensures manifests { AreManifests (known machine.old.history) manifests.new }
    ensures looked { Looked (D.meaning disk.old) (D.meaning disk.new) }
    ensures spares { Spares (D.meaning disk.old) (D.meaning disk.new) (is_read_fault result) }
    ensures quiet { IsSome (D.meaning disk.old).quiet → is_read_fault result ≡ false }
{
    match body {
        Body::Content { id, length: _ } => enter_content(alloc, machine, id, content_in(payload)),
        Body::Change(commit) => enter_changeset(alloc, machine, manifests, commit, payload),
        Body::Book(movement) => enter_move(alloc, machine, &movement, payload),
        Body::Land(landing) => enter_landing(alloc, machine, &landing, payload),
        Body::Policy { caller, text } => enter_policy(
            alloc,
            machine,
            &caller,
            text.as_slice(),
            payload,
        ),
        Body::Whole { parts, .. } => enter_whole(alloc, disk, machine, parts, payload),
    }
}

// The bytes in the payload of a content: what stands behind its mark.
fn content_in(payload: &[u8]) -> &[u8]
    requires { (content : List ℕ) × (payload.now ≡ 0x42 ∷ content) }
    ensures { payload.now ≡ 0x42 ∷ result.now }
{
    &payload[1..]
}

// Enters a content that may be put there.
fn enter_content(
    alloc: Global,
    machine: &mut Machine,
    id: Id,
    content: &[u8],
) -> Result<(), ReplayFault>
    requires id { id ≡ sha256 content.now }
    requires legal { IsLegal machine.old.header machine.old.history }
    ensures enters { Enters machine.old.history (asked_entry machine.old.header machine.old.history (0x42 ∷ content.now) (PutContent content.now)) result machine.new.history }
    ensures header { machine.new.header ≡ machine.old.header }
    ensures legal { IsLegal machine.new.header machine.new.history }
    ensures calm { is_read_fault result ≡ false }
{
    if content.len() as u64 > MOST_CONTENT {
        return Err(ReplayFault::BadPayload);
    }
    let made = machine.replay_content(alloc, NO_SEAT, id, content)?;
    if !made {
        return Err(ReplayFault::BadPayload);
    }
    Ok(())
}

// Enters a changeset that may be put there. Of a merge the parents' pasts are derived first, so that only the directories in
// which the parents differ are read. Nothing is derived of another changeset.
fn enter_changeset(
    alloc: Global,
    machine: &mut Machine,
    manifests: &mut ManifestStore,
    commit: Commit,
    payload: &[u8],
) -> Result<(), ReplayFault>
    requires spelled { payload.now ≡ spelling commit }
    requires decoded { decoded (spelling commit) ≡ Ok commit }
    requires legal { IsLegal machine.old.header machine.old.history }
    requires manifests { AreManifests (known machine.old.history) manifests.old }
    ensures enters { Enters machine.old.history (asked_entry machine.old.header machine.old.history (spelling commit) (PutChangeset (spelling commit))) result machine.new.history }
    ensures header { machine.new.header ≡ machine.old.header }
    ensures legal { IsLegal machine.new.header machine.new.history }
    ensures manifests { AreManifests (known machine.old.history) manifests.new }
    ensures calm { is_read_fault result ≡ false }
{
    let left = left_by(alloc, machine, manifests, commit.changeset())?;
    let made = machine.replay_changeset(alloc, NO_SEAT, commit, payload, left)?;
    if !made {
        return Err(ReplayFault::BadPayload);
    }
    Ok(())
}

// What a changeset leaves unresolved between its parents, if it has two, whose pasts are derived first.
fn left_by(
    alloc: Global,
    machine: &Machine,
    manifests: &mut ManifestStore,
    change: &Changeset,
) -> Result<Option<RepoPath>, AllocError>
    requires { AreManifests (known machine.now.history) manifests.old }
    ensures left { IfOk result (λ path. AllByRecursion (λ p. is_known (known machine.now.history) p ≡ true) change.now.parents → path ≡ unresolved_of (known machine.now.history) change.now change.now.parents) }
    ensures manifests { AreManifests (known machine.now.history) manifests.new }
{
    let changesets = machine.changesets();
    derive_parents(alloc, changesets, manifests, change)?;
    left_unresolved(alloc, changesets, manifests, change)
}

// Enters a bookmark's move, if it is the one that the machine makes of its heads.
fn enter_move(
    alloc: Global,
    machine: &mut Machine,
    movement: &Move,
    payload: &[u8],
) -> Result<(), ReplayFault>
    requires spelled { payload.now ≡ payload_of (Book (move_of movement.now)) [] }
    requires legal { IsLegal machine.old.header machine.old.history }
    ensures enters { Enters machine.old.history (asked_entry machine.old.header machine.old.history payload.now (SetBookmark (unwrap_or movement.now.caller nobody) movement.now.name movement.now.from movement.now.to)) result machine.new.history }
    ensures header { machine.new.header ≡ machine.old.header }
    ensures legal { IsLegal machine.new.header machine.new.history }
    ensures calm { is_read_fault result ≡ false }
{
    let caller = caller_of(alloc, movement.caller.as_ref())?;
    let judged = machine.judge_bookmark(
        alloc,
        NO_SEAT,
        &caller,
        &movement.name,
        movement.from,
        movement.to,
    )?;
    if !makes_payload(&judged, payload) {
        return Err(ReplayFault::BadPayload);
    }
    enter_judged(machine, judged)
}

// Enters a landing, if it is the one that the machine makes of its draft at its moment.
fn enter_landing(
    alloc: Global,
    machine: &mut Machine,
    landing: &Landing,
    payload: &[u8],
) -> Result<(), ReplayFault>
    requires spelled { payload.now ≡ payload_of (Land (landing_of landing.now)) [] }
    requires legal { IsLegal machine.old.header machine.old.history }
    ensures enters { Enters machine.old.history (asked_entry machine.old.header machine.old.history payload.now (LandDraft (unwrap_or landing.now.caller nobody) landing.now.name landing.now.draft (unwrap_or landing.now.moment 0))) result machine.new.history }
    ensures header { machine.new.header ≡ machine.old.header }
    ensures legal { IsLegal machine.new.header machine.new.history }
    ensures calm { is_read_fault result ≡ false }
{
    // What is landed without a moment has no date of it, so any moment makes the same.
    let moment = landing.moment.unwrap_or(0);
    let caller = caller_of(alloc, landing.caller.as_ref())?;
    let judged = machine.judge_landing(
        alloc,
        NO_SEAT,
        &caller,
        &landing.name,
        landing.draft,
        moment,
    )?;
    if !makes_payload(&judged, payload) {
        return Err(ReplayFault::BadPayload);
    }
    enter_judged(machine, judged)
}

// Enters a policy that may be set there.
fn enter_policy(
    alloc: Global,
    machine: &mut Machine,
    caller: &BookName,
    text: &[u8],
    payload: &[u8],
) -> Result<(), ReplayFault>
    requires { payload.now ≡ payload_of (Policy caller.now text.now) [] }
    ensures enters { Enters machine.old.history (asked_entry machine.old.header machine.old.history payload.now (SetPolicy caller.now text.now)) result machine.new.history }
    ensures header { machine.new.header ≡ machine.old.header }
    ensures legal { IsLegal machine.new.header machine.new.history }
    ensures calm { is_read_fault result ≡ false }
{
    let judged = machine.judge_policy_of(alloc, NO_SEAT, caller, text)?;
    enter_judged(machine, judged)
}

// Who asks where an entry tells this caller. What tells none was asked before there was a policy, by anyone.
fn caller_of(alloc: Global, caller: Option<&BookName>) -> Result<BookName, AllocError>
    ensures { IfOk result (λ name. name ≡ unwrap_or (option_copied caller.entry) nobody) }
{
    match caller {
        Some(caller) => caller.copy(alloc),
        None => nobody(alloc),
    }
}

// The caller who stands for anyone.
fn nobody(alloc: Global) -> Result<BookName, AllocError>
    ensures { IfOk result (λ name. name ≡ nobody) }
{
    match BookName::parse(alloc, "anonymous") {
        Ok(name) => Ok(name),
        Err(NameFault::BadName { .. }) => unreachable!(),
        Err(NameFault::Memory) => Err(AllocError),
    }
}

/// Whether an entry is made whose record has this payload.
pub(crate) fn makes_payload(judged: &Judged, payload: &[u8]) -> bool
    requires { Frames judged.now.made judged.now.frame }
    ensures { IsTrue result ↔ (IsSome judged.now.made × (judged.now.frame ≡ framed payload.now)) }
{
    match judged.frame() {
        Some(frame) => payload_in(frame) == payload,
        None => false,
    }
}

// The payload in a framed record: what stands behind its length of 4 bytes and before the closed gate.
fn payload_in(frame: &[u8]) -> &[u8]
    requires { (payload : List ℕ) × (frame.now ≡ framed payload) }
    ensures { frame.now ≡ framed result.now }
{
    &frame[4..frame.len() - 1]
}

/// Enters what was judged there, if it makes an entry.
pub(crate) fn enter_judged(machine: &mut Machine, judged: Judged) -> Result<(), ReplayFault>
    requires by { judged.who ≡ NO_SEAT }
    requires judged { IsJudgedHere machine.old.header machine.old.history judged }
    requires room { HasRoom machine.old.room judged.made }
    requires legal { IsLegal machine.old.header machine.old.history }
    ensures enters { Enters machine.old.history judged.made result machine.new.history }
    ensures header { machine.new.header ≡ machine.old.header }
    ensures legal { IsLegal machine.new.header machine.new.history }
    ensures calm { is_read_fault result ≡ false }
{
    if judged.frame().is_none() {
        return Err(ReplayFault::BadPayload);
    }
    let _granted = machine.admit(judged);
    Ok(())
}
