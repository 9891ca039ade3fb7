//! Policies of a repository in a file, and what they allow. The ids are those of an independent computation.
use crate::moves::{CHANGES, DRAFT, ROOT};
use crate::repository::{Names, id, make_changes, names_of, new_repository};
use blob_disk::{Disk, MemDisk};
use object_id::Id;
use repo_calls::{Ask, ChangeFault, Granted};
use repo_state::RepoState;
use std::alloc::{AllocError, Global};
use std::process::Abort;
use std::test::Fail;

// Where `main` stands once the draft was landed upon the head.
const LANDED: &str = "8cbb3b3397243d01a0b36181700e1e2aeb37da1bdb3904478b305a9f9b55b8de";

// Who asks, for what, and what is told: `policy` sets one of these lines, `land` lands the draft, which sets `p`, and `move`
// moves `main` from there to the root.
const ROWS: &str = "\
ann policy allow ann = BadPolicy { line: 0 }
ann policy allow ann p;deny * p;allow * /; = policy 5
bob land = Denied { place: Path(p), rule: Some(1) }
ann land = done
ann policy allow ann /; = policy 7
bob move = Denied { place: Bookmark(main), rule: None }
bob policy allow bob /; = Denied { place: Policy, rule: None }
ann move = done";

fn told(alloc: Global, answer: Result<Granted, ChangeFault>) -> Result<String, Fail> {
    match answer {
        Ok(Granted::Policy { number }) => Ok(format!(in alloc; "policy {number}")?),
        Ok(_) => Ok(format!(in alloc; "done")?),
        Err(ChangeFault::Refused(refusal)) => Ok(format!(in alloc; "{refusal:?}")?),
        Err(_) => Err(Fail::from("a change")),
    }
}

// The text of lines that end in `;`.
fn text_of(alloc: Global, lines: &str) -> Result<Vec<u8>, AllocError> {
    let mut text = Vec::new(alloc);
    for byte in lines.bytes() {
        text.push(if byte == b';' { b'\n' } else { byte })?;
    }
    Ok(text)
}

fn ask<'a>(names: &'a Names, word: &str, draft: Id, text: &'a [u8]) -> Ask<'a> {
    let (caller, name) = (&names.caller, &names.main);
    match word {
        "policy" => Ask::SetPolicy { caller, text },
        "land" => Ask::Land {
            caller,
            name,
            draft,
            moment: 0,
        },
        _ => Ask::SetBookmark {
            caller,
            name,
            from: id(LANDED),
            to: id(ROOT),
        },
    }
}

fn answer<D: Disk>(alloc: Global, state: &mut RepoState<D>, words: &str) -> Result<String, Fail> {
    let (caller, words) = words.split_once(" ").ok_or("a caller")?;
    let (word, lines) = words.split_once(" ").unwrap_or((words, ""));
    let names = names_of(alloc, caller)?;
    let text = text_of(alloc, lines)?;
    let draft = id(DRAFT).ok_or("a draft")?;
    let ask = ask(&names, word, draft, text.as_slice());
    told(alloc, state.store(alloc, 2, &ask))
}

fn check_rows<D: Disk>(
    rt: &impl Abort,
    alloc: Global,
    state: &mut RepoState<D>,
) -> Result<(), Fail> {
    for row in ROWS.lines() {
        let (words, wanted) = row.split_once(" = ").ok_or("a row")?;
        let told = answer(alloc, state, words)?;
        assert_eq!(rt; told.as_str(), wanted, "{row}");
    }
    Ok(())
}

fn decide(rt: &impl Abort, alloc: Global, state: &mut RepoState<MemDisk>) -> Result<(), Fail> {
    make_changes(alloc, state, &names_of(alloc, "ann")?, CHANGES)?;
    check_rows(rt, alloc, state)
}

#[test]
fn a_policy_decides_who_may_change_what(rt: HostRuntime) -> Result<(), Fail> {
    let mut state = new_repository(rt.alloc())?;
    decide(&rt, rt.alloc(), &mut state)
}
