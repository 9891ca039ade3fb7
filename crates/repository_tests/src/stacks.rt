//! Stacks on another head, and the paths that they touch.
ghost use Rattle.std.specs.Prelude.{IfOk, map};
ghost use Rattle.std.specs.Arc.{arc_value};
ghost use Rattle.bonsai.specs.Making.{KeepOnParents, KeepsOnParent};

use crate::examples::{Example, first, id, path};
use crate::rows::same;
use bonsai::Commit;
use object_id::Id;
use path_conflict::{Clash, is_rising, least_clash_uncounted};
use rebase_stack::{rebase, touched};
use repo_path::RepoPath;
use std::alloc::Global;
use std::process::Abort;
use std::sync::Arc;
use std::test::Fail;

fn commit_on(
    alloc: Global,
    author: u8,
    parent: Id,
    message: usize,
    edits: &str,
) -> Result<Commit, Fail> {
    let parents = [parent];
    Example {
        author,
        parents: &parents,
        message,
        edits,
        ..first()
    }
    .commit(alloc)
}

fn ids(alloc: Global, commits: &[Commit]) -> Result<Vec<Id>, Fail> {
    let mut ids = Vec::with_capacity(alloc, commits.len())?;
    for commit in commits {
        ids.push(commit.id())?;
    }
    Ok(ids)
}

// The ids of a stack, rewritten onto the head of 32 bytes 07.
fn on_sevens(alloc: Global, stack: &[Arc<Commit>], moment: u64) -> Result<Vec<Id>, Fail>
    requires { KeepOnParents (map arc_value stack.now) }
{
    let commits = rebase(alloc, stack, Id::from_bytes([7; 32]), moment)?;
    ids(alloc, commits.as_slice())
}

// What may stand upon one parent.
fn movable(commit: Commit) -> Result<Commit, Fail>
    ensures { IfOk result KeepsOnParent }
{
    if !commit.changeset().keeps_on_parent() {
        return Err(Fail::from("copies of another parent's files"));
    }
    Ok(commit)
}

// The ids of two changesets, each on the one before, rewritten at this moment.
fn both_on_sevens(alloc: Global, one: Commit, two: Commit, moment: u64) -> Result<Vec<Id>, Fail> {
    let one = Arc::new(alloc, movable(one)?)?;
    let two = Arc::new(alloc, movable(two)?)?;
    on_sevens(alloc, &[one, two], moment)
}

fn rewritten(alloc: Global) -> Result<Vec<Id>, Fail> {
    let ones = Id::from_bytes([1; 32]);
    let one = commit_on(alloc, b'a', ones, 3, "-a/b b:abc")?;
    let two = commit_on(alloc, b'b', one.id(), 0, "a/b:abc -a.b")?;
    both_on_sevens(alloc, one, two, 0)
}

#[test]
fn a_stack_on_another_head(rt: HostRuntime) -> Result<(), Fail> {
    let ids = rewritten(rt.alloc())?;
    let wanted = [
        id("7cdc85380857451c036dda0bab29bede97e843deb502b600c83d76f37d265728")?,
        id("a438f8dc96c8b20b759c970f1c17789cc16818ff30471d847d38ddb6072dd5e3")?,
    ];
    assert_eq!(rt; ids.as_slice(), wanted.as_slice());
    Ok(())
}

// The paths that two changesets touch, each behind a blank.
fn touched_texts(alloc: Global) -> Result<String, Fail> {
    let one = Example {
        edits: "-a/b b:abc",
        ..first()
    }
    .commit(alloc)?;
    let two = Example {
        edits: "a/b:abc -a.b",
        ..first()
    }
    .commit(alloc)?;
    let mut texts = String::new(alloc);
    for path in &touched(alloc, &[one.changeset(), two.changeset()])? {
        texts.push(' ')?;
        texts.push_str(path.as_str())?;
    }
    Ok(texts)
}

#[test]
fn touched_paths_rise(rt: HostRuntime) -> Result<(), Fail> {
    let texts = touched_texts(rt.alloc())?;
    assert_eq!(rt; texts.as_str(), " a/b a.b b");
    Ok(())
}

// The paths of a text, which a blank parts.
fn paths(alloc: Global, text: &str) -> Result<Vec<RepoPath>, Fail> {
    let mut paths = Vec::new(alloc);
    for text in text.split(' ') {
        if !text.is_empty() {
            paths.push(path(alloc, text)?)?;
        }
    }
    Ok(paths)
}

fn borrowed<'a>(alloc: Global, paths: &'a [RepoPath]) -> Result<Vec<&'a RepoPath>, Fail> {
    Ok(paths.iter().collect(alloc)?)
}

// The places of the least clash.
fn places(left: &[&RepoPath], right: &[&RepoPath]) -> Result<Option<Clash>, Fail> {
    if !is_rising(left) || !is_rising(right) {
        return Err(Fail::from("rising paths"));
    }
    Ok(least_clash_uncounted(left, right))
}

// Paths on the left and on the right, and the places of the least clash.
const CLASHES: &str = "\
a/b c | a a/a c/d = 0 0
b | a a/b b/x b/y = 0 2
a.b | a a/b = -
 | a = -
a |  = -
lib/x | lib = 0 0
y | y = 0 0
a/b a/c | a/d = -";

fn put_places(out: &mut String, found: Option<Clash>) -> Result<(), Fail> {
    match found {
        Some(Clash { left, right }) => Ok(write!(out, "{left} {right}")?),
        None => Ok(out.push('-')?),
    }
}

fn told(alloc: Global, left: &str, right: &str) -> Result<String, Fail> {
    let left = paths(alloc, left)?;
    let right = paths(alloc, right)?;
    let left = borrowed(alloc, left.as_slice())?;
    let right = borrowed(alloc, right.as_slice())?;
    let mut out = String::new(alloc);
    put_places(&mut out, places(left.as_slice(), right.as_slice())?)?;
    Ok(out)
}

fn check_clash(rt: &impl Abort, alloc: Global, row: &str) -> Result<(), Fail> {
    let (words, wanted) = row.split_once(" = ").ok_or("a row")?;
    let (left, right) = words.split_once(" | ").ok_or("two sides")?;
    let told = told(alloc, left, right)?;
    same(rt, told.as_str(), wanted, row);
    Ok(())
}

#[test]
fn least_clashes(rt: HostRuntime) -> Result<(), Fail> {
    for row in CLASHES.lines() {
        check_clash(&rt, rt.alloc(), row)?;
    }
    Ok(())
}
