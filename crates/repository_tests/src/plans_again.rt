//! Plans that are made again, after another seat moved `main`, landed on it or set a policy. The ids are those of an
//! independent computation.
ghost use Rattle.std.specs.Prelude.{◌≡◌, ◌<◌};
ghost use Rattle.repo_machine.specs.Again.{WasPlan};

use crate::acts::{Between, perform_both, read_between};
use crate::rows::same;
use crate::steps::{Run, new_run, run_lines};
use ancestry::Steps;
use bonsai::{Commit, Version};
use object_id::Id;
use repo_calls::Refusal;
use repo_machine::{Machine, Plan};
use repo_path::BookName;
use std::alloc::Global;
use std::marker::Brand;
use std::process::Abort;
use std::sync::Arc;
use std::sync::ledger::{Blank, Ledger};
use std::test::Fail;

fn plan_again<L: Ledger>(
    alloc: Global,
    machine: &Machine,
    plan: Plan,
    blank: Blank,
) -> Result<Plan, Refusal>
    requires name { blank.name ≡ L.name }
    requires parts { blank.parts ≡ L.parts }
    requires some { 0 < blank.parts }
    requires planned { WasPlan machine.now.history plan }
{
    let mut steps = Steps::<L>::new(blank);
    machine.plan_again(alloc, plan, &mut steps)
}

// Plans to land a draft, has another seat act, and plans again.
fn plan_twice(
    alloc: Global,
    machine: &mut Machine,
    main: &BookName,
    caller: &BookName,
    between: &Between,
) -> Result<Result<Plan, Refusal>, Fail> {
    let Ok(plan) = machine.plan(alloc, caller, main, between.draft) else {
        return Err(Fail::from("a plan"));
    };
    perform_both(alloc, machine, main, between)?;
    Ok(plan_again::<Brand>(alloc, machine, plan, Blank::new(1)))
}

// How many new changesets a plan gives, and the id of the last.
fn tell(alloc: Global, planned: Result<Plan, Refusal>) -> Result<String, Fail> {
    let mut out = String::new(alloc);
    match planned {
        Ok(plan) => put_plan(alloc, &mut out, &plan)?,
        Err(refusal) => write!(out, "{refusal:?}")?,
    }
    Ok(out)
}

fn put_plan(alloc: Global, out: &mut String, plan: &Plan) -> Result<(), Fail> {
    let rebased = plan.rebased(alloc, 0)?;
    put_commits(alloc, out, rebased.new())
}

fn put_commits(alloc: Global, out: &mut String, commits: &[Arc<Commit>]) -> Result<(), Fail> {
    write!(out, "{} ", commits.len())?;
    match commits.last() {
        Some(last) => Ok(out.push_str(last.id().to_hex(alloc)?.as_str())?),
        None => Ok(()),
    }
}

// What a plan made again tells.
fn told_again(alloc: Global, run: &mut Run, between: &Between) -> Result<String, Fail> {
    let again = plan_twice(alloc, &mut run.machine, &run.main, &run.caller, between)?;
    tell(alloc, again)
}

// What a plan made anew tells.
fn told_anew(alloc: Global, run: &Run, draft: Id) -> Result<String, Fail> {
    tell(
        alloc,
        run.machine.plan(alloc, &run.caller, &run.main, draft),
    )
}

// What is told by the plan made again by these words, and by the one that is made anew then.
fn told(alloc: Global, run: &mut Run, words: &str) -> Result<(String, String), Fail> {
    let between = read_between(alloc, run, words)?;
    let again = told_again(alloc, run, &between)?;
    Ok((again, told_anew(alloc, run, between.draft)?))
}

fn run_row(rt: &impl Abort, alloc: Global, row: &str) -> Result<(), Fail> {
    let (words, wanted) = row.split_once(" = ").ok_or("a row")?;
    let mut run = new_run(alloc, 65_536, Version::Second)?;
    run_lines(rt, alloc, &mut run, CHANGESETS)?;
    let (again, anew) = told(alloc, &mut run, words)?;
    same(rt, again.as_str(), wanted, row);
    same(rt, anew.as_str(), wanted, row);
    Ok(())
}

// `main` at a changeset that sets `x` (1), on a root (0). Beside it a draft that sets `y` (2), with another one upon it (5),
// and a changeset without edits (3). On `main` one that sets `y` too (4), and one that sets `w` (6).
const CHANGESETS: &str = "\
content abc
content
line - 1 0
change 0 x:abc
change 0 y:
line 0 1 0
change 1 y:abc
change 2 z:abc
change 1 w:abc
move 1
as bob";

// The draft that is planned, and what happens then.
const ROWS: &str = "\
2 | move 1 | - = 1 66018dae6dcd26aa7f15f755f702edd69b683e14a7531d0ba9293f9127fda14f
2 | land 3 | - = 1 7e621ad17dede990d4eddd19b9a5607531b55fa74dd4ef19426f7be5e69b4021
2 | move 6 | - = 1 aadf009f5739e394fefeb8b2c01cc7a7c573ef341933e3a62469dfd7eccf15f7
2 | move 4 | - = Clash { left: y, right: y }
5 | move 4 | - = Clash { left: y, right: y }
2 | move 0 | - = 1 640d00803ffd078abe99687f11f76e3949495f55dd88e999e6458f7adfdf79ac
5 | move 2 | - = 1 03897ca2179ea4705f3daebf2ae8c494fb1c7fcce8cc7319c88e15ab0f682245
5 | move 5 | - = AlreadyIn
2 | move - | - = NoBookmark
2 | policy allow * /; | - = 1 66018dae6dcd26aa7f15f755f702edd69b683e14a7531d0ba9293f9127fda14f
2 | policy deny bob y;allow * /; | - = Denied { place: Path(y), rule: Some(0) }
5 | policy deny * z;allow * /; | move 6 = Denied { place: Path(z), rule: Some(0) }
5 | policy deny bob z;deny bob y;allow * /; | move 4 = Denied { place: Path(y), rule: Some(1) }
2 | policy deny bob y;allow * /; | move 0 = Denied { place: Path(y), rule: Some(0) }
2 | policy allow ann /; | land 3 = Denied { place: Path(y), rule: None }
2 | policy deny bob y;allow ann /; | policy allow bob /; = 1 66018dae6dcd26aa7f15f755f702edd69b683e14a7531d0ba9293f9127fda14f
5 | policy allow ann /; | move 5 = AlreadyIn
2 | policy allow ann /; | move - = NoBookmark";

#[test]
fn a_plan_made_again_is_the_one_made_anew(rt: HostRuntime) -> Result<(), Fail> {
    for row in ROWS.lines() {
        run_row(&rt, rt.alloc(), row)?;
    }
    Ok(())
}
