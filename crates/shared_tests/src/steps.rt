//! What a seat does and is told, one step after another, by scripts. A script's line is a step, and after ` = ` what it
//! tells. Ids and changesets are hex digits.
//!
//! - `content TEXT` and `changeset DIGITS` store what they name, and `whole DIGITS` joins the contents of these ids;
//! - `move FROM TO` moves `main` for the caller `main`, where `-` stands for no bookmark;
//! - `land ID` lands a draft on `main` for that caller, and tells how many new changesets there are, and the last;
//! - `total` tells how many entries the log has, and `log N` those from this number on, too.
ghost use Rattle.std.specs.Prelude.{◌≡◌};

use crate::looks::tell as tell_answer;
use blob_disk::Disk;
use object_id::Id;
use ports::NoGate;
use repo_calls::{Ask, ChangeFault, DeniedPlace, Granted, Question, Refusal, Seat, Seen};
use repo_path::BookName;
use shared_repo::{Repo, RepoSeat, Served};
use std::alloc::Global;
use std::process::Abort;
use std::sync::Wait;
use std::test::Fail;

/// Does the steps of a script.
pub(crate) fn run_lines<S: Seat>(
    rt: &impl Abort,
    alloc: Global,
    seat: &mut S,
    script: &str,
) -> Result<(), Fail> {
    for line in script.lines() {
        let (step, wanted) = line.split_once(" = ").ok_or("a line")?;
        let told = told(alloc, seat, step)?;
        same(rt, told.as_str(), wanted, line);
    }
    Ok(())
}

/// Does the steps of a script at a seat.
pub(crate) fn run_at<R: Abort + Wait, D: Disk>(
    rt: &R,
    alloc: Global,
    repo: &Repo<D>,
    seat: RepoSeat,
    script: &str,
) -> Result<(), Fail>
    requires place { seat.lock ≡ repo.now }
{
    let mut seat = Served::new(rt, repo, seat, &NoGate);
    run_lines(rt, alloc, &mut seat, script)
}

fn same(rt: &impl Abort, told: &str, wanted: &str, line: &str) {
    assert_eq!(rt; told, wanted, "{line}");
}

fn told<S: Seat>(alloc: Global, seat: &mut S, step: &str) -> Result<String, Fail> {
    let (word, rest) = step.split_once(" ").unwrap_or((step, ""));
    match word {
        "content" => put_content(alloc, seat, rest),
        "changeset" => put_changeset(alloc, seat, rest),
        "whole" => join_contents(alloc, seat, rest),
        "move" => move_main(alloc, seat, rest),
        "land" => land(alloc, seat, rest),
        "total" => tell_total(alloc, seat),
        "log" => tell_log(alloc, seat, rest),
        _ => Err(Fail::from("a step")),
    }
}

fn put_content<S: Seat>(alloc: Global, seat: &mut S, text: &str) -> Result<String, Fail> {
    tell(alloc, seat.change(alloc, &Ask::PutContent(text.as_bytes())))
}

fn put_changeset<S: Seat>(alloc: Global, seat: &mut S, digits: &str) -> Result<String, Fail> {
    let bytes = hex::decode(alloc, digits)?;
    tell(
        alloc,
        seat.change(alloc, &Ask::PutChangeset(bytes.as_slice())),
    )
}

fn join_contents<S: Seat>(alloc: Global, seat: &mut S, digits: &str) -> Result<String, Fail> {
    let ids = hex::decode(alloc, digits)?;
    tell(alloc, seat.change(alloc, &Ask::PutWhole(ids.as_slice())))
}

fn move_main<S: Seat>(alloc: Global, seat: &mut S, words: &str) -> Result<String, Fail> {
    let (from, to) = words.split_once(" ").ok_or("two ids")?;
    let name = main_name(alloc)?;
    let (from, to) = (id_or_none(from)?, id_or_none(to)?);
    tell(alloc, move_from(alloc, seat, &name, from, to))
}

/// The name `main`.
pub(crate) fn main_name(alloc: Global) -> Result<BookName, Fail> {
    Ok(BookName::parse(alloc, "main")?)
}

/// Moves a bookmark. The name of it is the caller's, too.
pub(crate) fn move_from<S: Seat>(
    alloc: Global,
    seat: &mut S,
    name: &BookName,
    from: Option<Id>,
    to: Option<Id>,
) -> Result<Granted, ChangeFault> {
    seat.change(
        alloc,
        &Ask::SetBookmark {
            caller: name,
            name,
            from,
            to,
        },
    )
}

fn land<S: Seat>(alloc: Global, seat: &mut S, digits: &str) -> Result<String, Fail> {
    let draft = id(digits)?;
    let name = &main_name(alloc)?;
    tell(
        alloc,
        seat.change(
            alloc,
            &Ask::Land {
                caller: name,
                name,
                draft,
                moment: 0,
            },
        ),
    )
}

/// The id of these digits.
pub(crate) fn id(digits: &str) -> Result<Id, Fail> {
    Ok(Id::from_hex(digits)?)
}

fn id_or_none(digits: &str) -> Result<Option<Id>, Fail> {
    if digits == "-" {
        return Ok(None);
    }
    Ok(Some(id(digits)?))
}

fn tell(alloc: Global, answer: Result<Granted, ChangeFault>) -> Result<String, Fail> {
    match answer {
        Ok(Granted::Landing(landed)) => tell_landed(alloc, landed.ids.as_slice()),
        Ok(_) => Ok(String::from_str(alloc, "done")?),
        Err(fault) => tell_fault(alloc, &fault),
    }
}

fn tell_fault(alloc: Global, fault: &ChangeFault) -> Result<String, Fail> {
    match fault {
        ChangeFault::Refused(refusal) => tell_refusal(alloc, refusal),
        ChangeFault::BadBytes { wanted, found } => tell_other(alloc, *wanted, *found),
        _ => Ok(format!(in alloc; "{fault:?}")?),
    }
}

fn tell_refusal(alloc: Global, refusal: &Refusal) -> Result<String, Fail> {
    match refusal {
        Refusal::Denied { place, rule } => tell_denied(alloc, place, *rule),
        refusal => Ok(format!(in alloc; "Refused({refusal:?})")?),
    }
}

// The content that was wanted, and the one whose bytes there are.
fn tell_other(alloc: Global, wanted: Id, found: Id) -> Result<String, Fail> {
    let (wanted, found) = (wanted.to_hex(alloc)?, found.to_hex(alloc)?);
    Ok(format!(in alloc; "{wanted} is {found}")?)
}

// Where it is denied, and the number of the rule that decides.
fn tell_denied(alloc: Global, place: &DeniedPlace, rule: Option<u64>) -> Result<String, Fail> {
    match place {
        DeniedPlace::Path(path) => Ok(format!(in alloc; "denied at {path} by {rule:?}")?),
        _ => Err(Fail::from("a path")),
    }
}

fn last(ids: &[Id]) -> Result<Id, Fail> {
    match ids.last() {
        Some(last) => Ok(*last),
        None => Err(Fail::from("a changeset")),
    }
}

fn tell_landed(alloc: Global, ids: &[Id]) -> Result<String, Fail> {
    let count = ids.len();
    let last = last(ids)?.to_hex(alloc)?;
    Ok(format!(in alloc; "{count} {last}")?)
}

fn tell_total<S: Seat>(alloc: Global, seat: &mut S) -> Result<String, Fail> {
    let total = total(alloc, seat)?;
    Ok(format!(in alloc; "{total}")?)
}

fn tell_log<S: Seat>(alloc: Global, seat: &mut S, from: &str) -> Result<String, Fail> {
    let question = Question::Log(from.parse()?);
    tell_answer(alloc, seat.look(alloc, &question))
}

/// How many entries the log has.
pub(crate) fn total<S: Seat>(alloc: Global, seat: &mut S) -> Result<u64, Fail> {
    match seat.look(alloc, &Question::Log(0))? {
        Seen::Log(page) => Ok(page.total),
        _ => Err(Fail::from("a page of the log")),
    }
}
