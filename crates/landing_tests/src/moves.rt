//! Seat 1 plans a landing on `main`, seat 2 moves `main` and may set a policy, and seat 1 enters what it planned. The ids and
//! digits are those of an independent computation.
ghost use mathlib.Core.List.{IsPrefix};
ghost use Rattle.repo_machine.specs.Plans.{WasPlanned};

use crate::repository::{Names, id, make_changes, names_of, new_repository, store};
use blob_disk::MemDisk;
use object_id::Id;
use repo_calls::Ask;
use repo_machine::Rebased;
use repo_path::BookName;
use repo_state::{Exchanged, RepoState};
use std::alloc::Global;
use std::process::Abort;
use std::test::Fail;

pub(crate) const ROOT: &str = "ffb74880ae0d3038b6e6e402ea0840634c79efb3c927e280d44f36567ece7169";

// It sets `x`, and `main` stands there.
const HEAD: &str = "6f0fd4791e9901030b778dc51bebc28effb042f328726c7f1689026f5b9c68c8";

// It sets `p` upon the root.
pub(crate) const DRAFT: &str = "e8795b6f358309976a85a48b88590a7b77ffcdc1ce55d29a761853d4ff0669f0";

pub(crate) const CHANGES: &str = "\
content abc
change 4301000001610000000000000000000000000000000000000000
change 430101ffb74880ae0d3038b6e6e402ea0840634c79efb3c927e280d44f36567ece7169000161000000000000000000000000000000000000000100017801000000000000000003ba7816bf8f01cfea414140de5dae2223b00361a396177a9cb410ff61f20015ad
change 430101ffb74880ae0d3038b6e6e402ea0840634c79efb3c927e280d44f36567ece7169000161000000000000000000000000000000000000000100017001000000000000000003ba7816bf8f01cfea414140de5dae2223b00361a396177a9cb410ff61f20015ad
main 6f0fd4791e9901030b778dc51bebc28effb042f328726c7f1689026f5b9c68c8";

// The draft upon the head, as the eighth entry after two moves.
const LANDED: &str = "8 landed 8cbb3b3397243d01a0b36181700e1e2aeb37da1bdb3904478b305a9f9b55b8de";

// The same as the ninth, after a policy that allows it.
const ALLOWED: &str = "9 landed 8cbb3b3397243d01a0b36181700e1e2aeb37da1bdb3904478b305a9f9b55b8de";

// Nothing after a policy that doesn't.
const DENIED: &str = "8 Denied { place: Path(p), rule: Some(0) }";

// Nothing after the first move, since the second is to where `main` stands.
const MOVED: &str = "6 moved ffb74880ae0d3038b6e6e402ea0840634c79efb3c927e280d44f36567ece7169";

// Moves `main` for seat 2.
fn move_main(
    alloc: Global,
    state: &mut RepoState<MemDisk>,
    names: &Names,
    from: &str,
    to: &str,
) -> Result<(), Fail>
    ensures { IsPrefix state.old.history state.new.history }
{
    let ask = Ask::SetBookmark {
        caller: &names.caller,
        name: &names.main,
        from: id(from),
        to: id(to),
    };
    store(alloc, state, &ask)
}

// Sets this policy for seat 2, unless it is empty.
fn set_policy(
    alloc: Global,
    state: &mut RepoState<MemDisk>,
    caller: &BookName,
    policy: &str,
) -> Result<(), Fail>
    ensures { IsPrefix state.old.history state.new.history }
{
    if policy.is_empty() {
        return Ok(());
    }
    let ask = Ask::SetPolicy {
        caller,
        text: policy.as_bytes(),
    };
    store(alloc, state, &ask)
}

// Enters for seat 1 what was planned, if `main` has the planned head.
fn enter(alloc: Global, state: &mut RepoState<MemDisk>, rebased: Rebased) -> Result<Exchanged, Fail>
    requires { WasPlanned state.old.history rebased }
{
    state.reserve(alloc, &rebased)?;
    Ok(state.exchange(1, rebased))
}

// Moves `main` to the root and from there to this head, sets a policy, and enters what was planned.
fn enter_after_moves(
    alloc: Global,
    state: &mut RepoState<MemDisk>,
    names: &Names,
    last: &str,
    policy: &str,
    rebased: Rebased,
) -> Result<Exchanged, Fail>
    requires { WasPlanned state.old.history rebased }
{
    move_main(alloc, state, names, HEAD, ROOT)?;
    move_main(alloc, state, names, ROOT, last)?;
    set_policy(alloc, state, &names.caller, policy)?;
    enter(alloc, state, rebased)
}

// Plans to land the draft, has `main` moved, and enters what was planned.
fn land_between(
    alloc: Global,
    state: &mut RepoState<MemDisk>,
    names: &Names,
    draft: Id,
    last: &str,
    policy: &str,
) -> Result<Exchanged, Fail> {
    let Ok(plan) = state.plan(alloc, &names.caller, &names.main, draft) else {
        return Err(Fail::from("a plan"));
    };
    let rebased = plan.rebased(alloc, 0)?;
    enter_after_moves(alloc, state, names, last, policy, rebased)
}

// How many entries there are, and what was told.
fn told(alloc: Global, entries: u64, exchanged: &Exchanged) -> Result<String, Fail> {
    let (word, id) = match exchanged {
        Exchanged::Landed(landed) => ("landed", landed.ids.last().copied()),
        Exchanged::HeadMoved { found } => ("moved", *found),
        Exchanged::Refused(refusal) => {
            return Ok(format!(in alloc; "{entries} {refusal:?}")?);
        }
    };
    let id = id.ok_or("an id")?.to_hex(alloc)?;
    Ok(format!(in alloc; "{entries} {word} {id}")?)
}

fn attempt_in(
    alloc: Global,
    state: &mut RepoState<MemDisk>,
    names: &Names,
    last: &str,
    policy: &str,
) -> Result<String, Fail> {
    make_changes(alloc, state, names, CHANGES)?;
    let draft = id(DRAFT).ok_or("a draft")?;
    let exchanged = land_between(alloc, state, names, draft, last, policy)?;
    told(alloc, state.history_length(), &exchanged)
}

fn attempt(alloc: Global, last: &str, policy: &str) -> Result<String, Fail> {
    let names = names_of(alloc, "anonymous")?;
    let mut state = new_repository(alloc)?;
    attempt_in(alloc, &mut state, &names, last, policy)
}

fn check(
    rt: &(impl Abort + Alloc<A = Global>),
    last: &str,
    policy: &str,
    wanted: &str,
) -> Result<(), Fail> {
    let told = attempt(rt.alloc(), last, policy)?;
    assert_eq!(rt; told.as_str(), wanted);
    Ok(())
}

#[test]
fn a_plan_is_entered_where_main_has_its_head_again(rt: HostRuntime) -> Result<(), Fail> {
    check(&rt, HEAD, "", LANDED)?;
    check(&rt, ROOT, "", MOVED)
}

#[test]
fn a_policy_decides_on_what_was_planned_before(rt: HostRuntime) -> Result<(), Fail> {
    check(&rt, HEAD, "allow * /\n", ALLOWED)?;
    check(&rt, HEAD, "deny * p\nallow * /\n", DENIED)
}

// How many entries are sealed before and after all of them are to be, and whether that was done.
fn seal_all(alloc: Global, state: &mut RepoState<MemDisk>) -> Result<String, Fail> {
    let before = state.sealed();
    let stored = state.stored_length();
    let done = state.seal(2, stored).is_ok();
    let after = state.sealed();
    Ok(format!(in alloc; "{before} {done} {after}")?)
}

fn changes_sealed(alloc: Global) -> Result<String, Fail> {
    let names = names_of(alloc, "anonymous")?;
    let mut state = new_repository(alloc)?;
    make_changes(alloc, &mut state, &names, CHANGES)?;
    seal_all(alloc, &mut state)
}

#[test]
fn changes_wait_until_they_are_sealed(rt: HostRuntime) -> Result<(), Fail> {
    let sealed = changes_sealed(rt.alloc())?;
    assert_eq!(rt; sealed.as_str(), "0 true 5");
    Ok(())
}
