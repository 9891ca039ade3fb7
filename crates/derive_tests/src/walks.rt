//! What merges leave unresolved, found by walking their parents' fsnodes.
ghost use Rattle.std.specs.Prelude.{◌≡◌, ◌<◌};

use crate::changes::edits;
use crate::merges::{History, Member, merge_of};
use ancestry::Steps;
use bonsai::Changeset;
use merge_walk::{Fsnodes, least_unresolved};
use repo_path::RepoPath;
use std::marker::Brand;
use std::process::Abort;
use std::sync::ledger::{Blank, Ledger};
use std::test::Fail;

// The least path that a merge with edits that are told leaves.
fn left(
    history: &History,
    first: &Member,
    second: &Member,
    told: &str,
) -> Result<Option<RepoPath>, Fail> {
    let edits = edits(history.alloc, told)?;
    let commit = merge_of(history.alloc, first.derived.id, second.derived.id, edits)?;
    left_by::<Brand>(history, first, second, commit.changeset(), Blank::new(1))
}

fn left_by<L: Ledger>(
    history: &History,
    first: &Member,
    second: &Member,
    change: &Changeset,
    blank: Blank,
) -> Result<Option<RepoPath>, Fail>
    requires name { blank.name ≡ L.name }
    requires parts { blank.parts ≡ L.parts }
    requires some { 0 < blank.parts }
{
    let table = history.store.table()?;
    let fsnodes = Fsnodes { table: &table };
    let mut steps = Steps::<L>::new(blank);
    let left = first.derived.roots.fsnode;
    let right = second.derived.roots.fsnode;
    Ok(least_unresolved(history.alloc, &fsnodes, left, right, change, &mut steps)?)
}

fn text_of(path: &Option<RepoPath>) -> Option<&str> {
    match path {
        Some(path) => Some(path.as_str()),
        None => None,
    }
}

// Both ways round.
fn check(
    rt: &impl Abort,
    history: &History,
    first: &Member,
    second: &Member,
    told: &str,
    path: Option<&str>,
) -> Result<(), Fail> {
    let there = left(history, first, second, told)?;
    assert_eq!(rt; text_of(&there), path);
    let back = left(history, second, first, told)?;
    assert_eq!(rt; text_of(&back), path);
    Ok(())
}

#[test]
fn the_least_path_that_is_left(rt: HostRuntime) -> Result<(), Fail> {
    let mut history = History::new(rt.alloc());
    let base = history.start("a/b=1 a/c=1 d=1 e/f=1")?;
    let one = history.add(&base, "a/b=2 d=22")?;
    let other = history.add(&base, "a/b=3 d/e=3 g=1")?;
    check(&rt, &history, &one, &other, "", Some("a/b"))?;
    check(&rt, &history, &one, &other, "a/c a/c/d=1", Some("a/b"))?;
    check(&rt, &history, &one, &other, "a/b=4", Some("d"))?;
    check(&rt, &history, &one, &other, "a=4", Some("d"))?;
    check(&rt, &history, &one, &other, "a/b d/e", None)?;
    check(&rt, &history, &one, &other, "a/b d", None)?;
    check(&rt, &history, &one, &other, "a/b d=1", None)?;
    Ok(())
}

#[test]
fn equal_trees_leave_nothing(rt: HostRuntime) -> Result<(), Fail> {
    let mut history = History::new(rt.alloc());
    let base = history.start("a/b=1 a/c=1 d=1")?;
    let same = history.add(&base, "")?;
    check(&rt, &history, &base, &same, "", None)?;
    // What one parent alone has stands against nothing.
    let more = history.add(&base, "a/d/e=1 f=1")?;
    check(&rt, &history, &base, &more, "", None)?;
    Ok(())
}
