//! What another seat does once a landing is planned.
ghost use mathlib.Core.List.{IsPrefix};

use crate::examples::name;
use crate::steps::{Run, cut, id_at, id_in, policy_text};
use object_id::Id;
use repo_machine::Machine;
use repo_path::BookName;
use std::alloc::Global;
use std::test::Fail;

/// What seat 2 does.
#[derive(Drop)]
enum Act {
    Nothing,
    /// Moves `main` from wherever it stands, or deletes it.
    Move(Option<Id>),
    Land(Id),
    Policy(Vec<u8>),
}

/// A draft that is planned to be landed, and what seat 2 then does for `ann`, one after the other.
#[derive(Drop)]
pub(crate) struct Between {
    pub(crate) draft: Id,
    caller: BookName,
    first: Act,
    second: Act,
}

/// The number of a draft and two acts, as `2 | move 0 | policy allow * /;`. An act is `move N`, `move -`, `land N`,
/// `policy TEXT` or `-`, which is none.
pub(crate) fn read_between(alloc: Global, run: &Run, words: &str) -> Result<Between, Fail> {
    let (draft, acts) = words.split_once(" | ").ok_or("a draft")?;
    let (first, second) = acts.split_once(" | ").ok_or("two acts")?;
    Ok(Between {
        draft: id_in(run, draft)?,
        caller: name(alloc, "ann")?,
        first: act_of(alloc, run, first)?,
        second: act_of(alloc, run, second)?,
    })
}

fn act_of(alloc: Global, run: &Run, words: &str) -> Result<Act, Fail> {
    let (word, rest) = cut(words);
    match word {
        "-" => Ok(Act::Nothing),
        "move" => Ok(Act::Move(id_at(run, rest)?)),
        "land" => Ok(Act::Land(id_in(run, rest)?)),
        "policy" => Ok(Act::Policy(policy_text(alloc, rest)?)),
        _ => Err(Fail::from("an act")),
    }
}

/// Does both.
pub(crate) fn perform_both(
    alloc: Global,
    machine: &mut Machine,
    main: &BookName,
    between: &Between,
) -> Result<(), Fail>
    ensures { IsPrefix machine.old.history machine.new.history }
{
    perform(alloc, machine, &between.caller, main, &between.first)?;
    perform(alloc, machine, &between.caller, main, &between.second)
}

fn perform(
    alloc: Global,
    machine: &mut Machine,
    caller: &BookName,
    main: &BookName,
    act: &Act,
) -> Result<(), Fail>
    ensures { IsPrefix machine.old.history machine.new.history }
{
    match act {
        Act::Nothing => Ok(()),
        Act::Move(to) => move_there(alloc, machine, caller, main, *to),
        Act::Land(draft) => land_there(alloc, machine, caller, main, *draft),
        Act::Policy(text) => set_there(alloc, machine, caller, text.as_slice()),
    }
}

fn move_there(
    alloc: Global,
    machine: &mut Machine,
    caller: &BookName,
    main: &BookName,
    to: Option<Id>,
) -> Result<(), Fail>
    ensures { IsPrefix machine.old.history machine.new.history }
{
    let from = machine.head(main);
    match machine.set_bookmark(alloc, 2, caller, main, from, to) {
        Ok(()) => Ok(()),
        Err(_) => Err(Fail::from("a move")),
    }
}

fn land_there(
    alloc: Global,
    machine: &mut Machine,
    caller: &BookName,
    main: &BookName,
    draft: Id,
) -> Result<(), Fail>
    ensures { IsPrefix machine.old.history machine.new.history }
{
    match machine.land(alloc, 2, caller, main, draft, 0) {
        Ok(_) => Ok(()),
        Err(_) => Err(Fail::from("a landing")),
    }
}

fn set_there(
    alloc: Global,
    machine: &mut Machine,
    caller: &BookName,
    text: &[u8],
) -> Result<(), Fail>
    ensures { IsPrefix machine.old.history machine.new.history }
{
    let Ok(judged) = machine.judge_policy_of(alloc, 2, caller, text) else {
        return Err(Fail::from("a policy"));
    };
    let _granted = machine.admit(judged);
    Ok(())
}
