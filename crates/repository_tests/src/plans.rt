//! Planned landings, between whose plan and exchange another seat moves `main` or sets a policy. The ids are those of an
//! independent computation.
ghost use Rattle.repo_machine.specs.Plans.{WasPlanned};

use crate::acts::{Between, perform_both, read_between};
use crate::rows::same;
use crate::steps::{Run, new_run, run_lines, told};
use bonsai::Version;
use repo_calls::Refusal;
use repo_machine::{Machine, Rebased};
use repo_path::BookName;
use std::alloc::Global;
use std::process::Abort;
use std::test::Fail;

// Lands for seat 1 what was planned, if `main` has the planned head, and tells whether it has.
fn exchange(
    alloc: Global,
    machine: &mut Machine,
    rebased: Rebased,
) -> Result<Result<bool, Refusal>, Fail>
    requires { WasPlanned machine.old.history rebased }
{
    machine.reserve(alloc, &rebased)?;
    if machine.head(rebased.name()) != Some(rebased.old()) {
        return Ok(Ok(false));
    }
    match machine.judge_rebased(1, rebased) {
        Ok(judged) => {
            let _granted = machine.admit(judged);
            Ok(Ok(true))
        }
        Err(refusal) => Ok(Err(refusal)),
    }
}

// Plans to land a draft on `main`, has another seat act, and lands what was planned if it can.
fn land_between(
    alloc: Global,
    machine: &mut Machine,
    main: &BookName,
    caller: &BookName,
    between: &Between,
) -> Result<Result<bool, Refusal>, Fail> {
    let Ok(plan) = machine.plan(alloc, caller, main, between.draft) else {
        return Err(Fail::from("a plan"));
    };
    let rebased = plan.rebased(alloc, 0)?;
    perform_both(alloc, machine, main, between)?;
    exchange(alloc, machine, rebased)
}

// What came of the exchange, and then who asked for the entries of the log, and the head.
fn attempt(alloc: Global, run: &mut Run, words: &str) -> Result<String, Fail> {
    let between = read_between(alloc, run, words)?;
    let exchanged = land_between(alloc, &mut run.machine, &run.main, &run.caller, &between)?;
    let mut out = String::new(alloc);
    put_exchanged(&mut out, exchanged)?;
    for question in ["?callers", "?head"] {
        out.push_str(", ")?;
        out.push_str(told(alloc, run, question)?.as_str())?;
    }
    Ok(out)
}

fn put_exchanged(out: &mut String, exchanged: Result<bool, Refusal>) -> Result<(), Fail> {
    match exchanged {
        Ok(true) => Ok(out.push_str("landed")?),
        Ok(false) => Ok(out.push_str("moved")?),
        Err(refusal) => Ok(write!(out, "{refusal:?}")?),
    }
}

// Each row by itself, behind these steps.
fn check(
    rt: &(impl Abort + Alloc<A = Global>),
    version: Version,
    more: &str,
    rows: &str,
) -> Result<(), Fail> {
    for row in rows.lines() {
        let (words, wanted) = row.split_once(" = ").ok_or("a row")?;
        let mut run = new_run(rt.alloc(), 65_536, version)?;
        run_lines(rt, rt.alloc(), &mut run, DRAFTS)?;
        run_lines(rt, rt.alloc(), &mut run, more)?;
        let told = attempt(rt.alloc(), &mut run, words)?;
        same(rt, told.as_str(), wanted, row);
    }
    Ok(())
}

// `main` at a changeset that sets `x` (1), on a root (0), a draft beside it that sets `y` (2), and one upon that which
// deletes `a` (3).
const DRAFTS: &str = "\
content abc
content
line - 1 0
change 0 x:abc
change 0 y:
change 2 -a
move 1
as bob";

// Seven entries before the plan. A move to where `main` stands is none.
const MOVES: &str = "\
2 | move 0 | move 1 = landed, 10, 66018dae6dcd26aa7f15f755f702edd69b683e14a7531d0ba9293f9127fda14f
2 | move 0 | move 0 = moved, 8, ffb74880ae0d3038b6e6e402ea0840634c79efb3c927e280d44f36567ece7169
2 | - | - = landed, 8, 66018dae6dcd26aa7f15f755f702edd69b683e14a7531d0ba9293f9127fda14f";

#[test]
fn a_plan_outlasts_moves_that_bring_its_head_back(rt: HostRuntime) -> Result<(), Fail> {
    check(&rt, Version::First, "", MOVES)?;
    check(&rt, Version::Second, "", MOVES)
}

// No policy is held when it is planned.
const POLICIES: &str = "\
2 | policy deny bob y;allow * /; | - = Denied { place: Path(y), rule: Some(0) }, 8 ann/2, 6f0fd4791e9901030b778dc51bebc28effb042f328726c7f1689026f5b9c68c8
2 | policy allow ann /; | - = Denied { place: Path(y), rule: None }, 8 ann/1, 6f0fd4791e9901030b778dc51bebc28effb042f328726c7f1689026f5b9c68c8
2 | policy allow bob y; | - = landed, 9 ann/1 bob, 66018dae6dcd26aa7f15f755f702edd69b683e14a7531d0ba9293f9127fda14f
2 | policy deny bob /;allow ann /; | policy allow * /; = landed, 10 ann/2 ann/1 bob, 66018dae6dcd26aa7f15f755f702edd69b683e14a7531d0ba9293f9127fda14f
2 | policy allow * /; | policy deny bob y;allow * /; = Denied { place: Path(y), rule: Some(0) }, 9 ann/1 ann/2, 6f0fd4791e9901030b778dc51bebc28effb042f328726c7f1689026f5b9c68c8
2 | policy deny bob .bookmarks;deny bob .policy;allow * /; | - = landed, 9 ann/3 bob, 66018dae6dcd26aa7f15f755f702edd69b683e14a7531d0ba9293f9127fda14f
3 | policy allow ann /;deny * y;deny bob a;allow * /; | - = Denied { place: Path(a), rule: Some(2) }, 8 ann/4, 6f0fd4791e9901030b778dc51bebc28effb042f328726c7f1689026f5b9c68c8
3 | policy deny bob y;allow * /; | - = Denied { place: Path(y), rule: Some(0) }, 8 ann/2, 6f0fd4791e9901030b778dc51bebc28effb042f328726c7f1689026f5b9c68c8
2 | policy deny bob y;allow * /; | move 0 = moved, 9 ann/2 ann, ffb74880ae0d3038b6e6e402ea0840634c79efb3c927e280d44f36567ece7169";

// One is held that allows all, and is the entry before the plan.
const HELD: &str = "\
2 | - | - = landed, 9 bob/1 bob, 66018dae6dcd26aa7f15f755f702edd69b683e14a7531d0ba9293f9127fda14f
2 | policy deny bob y;allow * /; | - = Denied { place: Path(y), rule: Some(0) }, 9 bob/1 ann/2, 6f0fd4791e9901030b778dc51bebc28effb042f328726c7f1689026f5b9c68c8
2 | policy deny ann /;allow bob /; | - = landed, 10 bob/1 ann/2 bob, 66018dae6dcd26aa7f15f755f702edd69b683e14a7531d0ba9293f9127fda14f
2 | policy allow ann /; | policy allow * y; = landed, 11 bob/1 ann/1 ann/1 bob, 66018dae6dcd26aa7f15f755f702edd69b683e14a7531d0ba9293f9127fda14f
2 | move 0 | move 1 = landed, 11 bob/1 ann ann bob, 66018dae6dcd26aa7f15f755f702edd69b683e14a7531d0ba9293f9127fda14f";

#[test]
fn a_policy_is_asked_again_at_the_exchange(rt: HostRuntime) -> Result<(), Fail> {
    check(&rt, Version::Second, "", POLICIES)?;
    check(&rt, Version::Second, "policy allow * /; = 7", HELD)
}
