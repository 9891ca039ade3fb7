//! One change that a client asks for.
ghost use Rattle.std.specs.Prelude.{◌≡◌, ◌∷◌, [], IfOk, IsTrue};
ghost use Rattle.bookmark_lock.specs.Place.{moved};
ghost use Rattle.reply_model.specs.After.{Asks};
ghost use Rattle.reply_model.specs.Reply as model;
ghost use Rattle.reply_model.specs.Reply.{LandDraft};
ghost use Rattle.reply_model.specs.Opening.{nobody};
ghost use Rattle.repo_calls.specs.Calls.{call_seen, granted_seen};
ghost use Rattle.repo_state.specs.State.{IsQuiet};
ghost use Rattle.run_gen.specs.Answers.{Answered};
ghost use Rattle.run_gen.specs.Calls.{heads_in, last_id};
ghost use Rattle.run_gen.specs.Grants.{FitsAsk, IsLanding, IsSameOutcome};
ghost use Rattle.run_gen.specs.Outcomes.{fault_of as fault_seen, heads_given, heads_left};
ghost use Rattle.run_gen.specs.Naming.{IsNamed};
ghost use Rattle.run_gen.specs.Parts.{is_upload};
ghost use Rattle.run_gen.specs.Stacks.{main};

use crate::LoadFault;
use crate::names::Names;
use blob_disk::Disk;
use object_id::Id;
use ports::NoGate;
use repo_calls::{Ask, ChangeFault, Granted, Landed, Refusal};
use shared_repo::{Repo, RepoSeat};
use std::alloc::Global;
use std::sync::Wait;

// Why a client stops at a refusal.
pub(crate) fn fault_of(refusal: Refusal) -> LoadFault
    ensures { result ≡ fault_seen refusal }
{
    match refusal {
        Refusal::Memory => LoadFault::Memory,
        Refusal::Down
        | Refusal::TooLong { .. }
        | Refusal::BadEncoding { .. }
        | Refusal::SelfConflict { .. }
        | Refusal::BadParts { .. }
        | Refusal::OldFormat
        | Refusal::NoPiece { .. }
        | Refusal::NotAPiece { .. }
        | Refusal::NoParent { .. }
        | Refusal::NoContent { .. }
        | Refusal::WrongSize { .. }
        | Refusal::Unresolved { .. }
        | Refusal::Collision { .. }
        | Refusal::NoChangeset { .. }
        | Refusal::Moved { .. }
        | Refusal::NoBookmark
        | Refusal::NoRoot
        | Refusal::TooFarBehind { .. }
        | Refusal::AlreadyIn
        | Refusal::StackTooLong { .. }
        | Refusal::MergeInStack { .. }
        | Refusal::MergeInRange { .. }
        | Refusal::Denied { .. }
        | Refusal::Clash { .. }
        | Refusal::TooLarge { .. }
        | Refusal::BadPolicy { .. }
        | Refusal::Full { .. } => LoadFault::Refused,
    }
}

// Asks for a change, which joins no contents. No call of the disk fails.
fn ask<R: Wait, D: Disk>(
    rt: &R,
    alloc: Global,
    repo: &Repo<D>,
    seat: &mut RepoSeat,
    change: &Ask,
) -> Result<Granted, LoadFault>
    requires place { seat.old.lock ≡ repo.now }
    requires quiet { IsQuiet repo.now.opening }
    requires asks { (asked : model.Ask) × (call_seen change.now ≡ Asks asked) }
    ensures seat { seat.new ≡ moved seat.old seat.new }
    ensures answered { (asked : model.Ask) → call_seen change.now ≡ Asks asked
        → Answered repo.now.opening.header seat.old.number seat.old.front (asked ∷ []) (heads_left result) result seat.new.front }
    ensures fits { (asked : model.Ask) → call_seen change.now ≡ Asks asked → IfOk result (λ granted. FitsAsk asked (granted_seen granted)) }
{
    match repo.change(rt, alloc, seat, change, &NoGate) {
        Ok(granted) => Ok(granted),
        Err(ChangeFault::Refused(refusal)) => Err(fault_of(refusal)),
        Err(ChangeFault::DiskFault) => unreachable!(),
        Err(ChangeFault::ReadFault) => unreachable!(),
        Err(ChangeFault::BadBytes { .. }) => unreachable!(),
    }
}

/// Asks for an upload.
pub(crate) fn put<R: Wait, D: Disk>(
    rt: &R,
    alloc: Global,
    repo: &Repo<D>,
    seat: &mut RepoSeat,
    upload: &Ask,
) -> Result<(), LoadFault>
    requires place { seat.old.lock ≡ repo.now }
    requires quiet { IsQuiet repo.now.opening }
    requires upload { (asked : model.Ask) × (call_seen upload.now ≡ Asks asked) × IsTrue (is_upload asked) }
    ensures seat { seat.new ≡ moved seat.old seat.new }
    ensures answered { (asked : model.Ask) → call_seen upload.now ≡ Asks asked
        → Answered repo.now.opening.header seat.old.number seat.old.front (asked ∷ []) [] result seat.new.front }
{
    let answer = ask(rt, alloc, repo, seat, upload);
    whether(answer)
}

// That a change was granted, or why not.
fn whether(answer: Result<Granted, LoadFault>) -> Result<(), LoadFault>
    ensures { IsSameOutcome answer result }
{
    match answer {
        Ok(_) => Ok(()),
        Err(fault) => Err(fault),
    }
}

// The head that a landing left.
fn head_of(landed: &Landed) -> Id
    ensures { result ≡ last_id landed.now.old landed.now.ids.items }
{
    match landed.ids.last() {
        Some(id) => *id,
        None => landed.old,
    }
}

/// Asks for a landing at the moment 0, for a caller who isn't named, and gives the head that it left.
pub(crate) fn land<R: Wait, D: Disk>(
    rt: &R,
    alloc: Global,
    repo: &Repo<D>,
    seat: &mut RepoSeat,
    names: &Names,
    draft: Id,
) -> Result<Id, LoadFault>
    requires place { seat.old.lock ≡ repo.now }
    requires quiet { IsQuiet repo.now.opening }
    requires names { IsNamed names.now }
    ensures seat { seat.new ≡ moved seat.old seat.new }
    ensures answered { Answered repo.now.opening.header seat.old.number seat.old.front (LandDraft nobody main draft 0 ∷ []) (heads_given result) result seat.new.front }
{
    let landing = Ask::Land {
        caller: &names.caller,
        name: &names.main,
        draft,
        moment: 0,
    };
    let answer = ask(rt, alloc, repo, seat, &landing);
    left_by(answer)
}

// The head that a landing left, or why there is none.
fn left_by(answer: Result<Granted, LoadFault>) -> Result<Id, LoadFault>
    requires { IfOk answer (λ granted. IsLanding (granted_seen granted)) }
    ensures same { IsSameOutcome answer result }
    ensures heads { heads_left answer ≡ heads_given result }
{
    match answer {
        Ok(granted) => Ok(head_in(granted)),
        Err(fault) => Err(fault),
    }
}

fn head_in(granted: Granted) -> Id
    requires { IsLanding (granted_seen granted) }
    ensures { heads_in (granted_seen granted) ≡ result ∷ [] }
{
    match granted {
        Granted::Landing(landed) => head_of(&landed),
        Granted::Content(_) => unreachable!(),
        Granted::Whole { .. } => unreachable!(),
        Granted::Changeset(_) => unreachable!(),
        Granted::Bookmark => unreachable!(),
        Granted::Policy { .. } => unreachable!(),
    }
}
