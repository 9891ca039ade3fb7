//! The nodes of small trees.
use crate::changes::{commit_of, edits};
use crate::store::{Derived, Store, root_of};
use object_id::Id;
use std::alloc::Global;
use std::process::Abort;
use std::test::Fail;
use unode::{FileUnode, Parents, decode_file};

// Derives a changeset of edits that are told on another.
fn derived(
    alloc: Global,
    store: &mut Store,
    before: Option<&Derived>,
    told: &str,
) -> Result<Derived, Fail> {
    let parent = match before {
        Some(before) => Some(before.id),
        None => None,
    };
    let edits = edits(alloc, told)?;
    let commit = commit_of(alloc, parent, edits)?;
    store.derive(commit, before)
}

fn length(store: &Store, id: &Id) -> Result<usize, Fail> {
    Ok(store.bytes(id)?.len())
}

// The numbers of the summary of a directory.
fn numbers(store: &Store, id: &Id) -> Result<[u64; 5], Fail> {
    Ok(store.fsnode(id)?.summary.numbers())
}

// The length of a directory's node, and the numbers of its summary.
fn told(alloc: Global, store: &Store, id: &Id) -> Result<String, Fail> {
    let length = length(store, id)?;
    let numbers = numbers(store, id)?;
    Ok(format!(in alloc; "{length} {numbers:?}")?)
}

fn check_dir(
    rt: &(impl Abort + Alloc<A = Global>),
    store: &Store,
    id: &Id,
    wanted: &str,
) -> Result<(), Fail> {
    let told = told(rt.alloc(), store, id)?;
    assert_eq!(rt; told.as_str(), wanted);
    Ok(())
}

#[test]
fn two_files(rt: HostRuntime) -> Result<(), Fail> {
    let alloc = rt.alloc();
    let mut store = Store::new(alloc);
    let root = derived(alloc, &mut store, None, "a/x=abc b=")?;
    assert_eq!(rt; root.new, 7);
    check_dir(&rt, &store, &root.roots.fsnode, "165 [1, 0, 1, 2, 3]")?;
    let a = store.dir_in(root_of(&root.roots), "a")?;
    check_dir(&rt, &store, &a.fsnode, "90 [1, 3, 0, 1, 3]")
}

#[test]
fn no_file(rt: HostRuntime) -> Result<(), Fail> {
    let alloc = rt.alloc();
    let mut store = Store::new(alloc);
    let root = derived(alloc, &mut store, None, "")?;
    assert_eq!(rt; root.new, 3);
    check_dir(&rt, &store, &root.roots.fsnode, "46 [0, 0, 0, 0, 0]")
}

fn file_unode(store: &Store, id: &Id) -> Result<FileUnode, Fail> {
    Ok(decode_file(store.bytes(id)?).ok_or("a file's unode")?)
}

#[test]
fn a_file_that_was_away_has_no_parent(rt: HostRuntime) -> Result<(), Fail> {
    let alloc = rt.alloc();
    let mut store = Store::new(alloc);
    let first = derived(alloc, &mut store, None, "p=abc")?;
    let away = derived(alloc, &mut store, Some(&first), "p")?;
    let last = derived(alloc, &mut store, Some(&away), "p=abc")?;
    let id = store.file_in(root_of(&last.roots), "p")?;
    assert_eq!(rt; length(&store, &id)?, 100);
    let file = file_unode(&store, &id)?;
    assert_eq!(rt; file.parents, Parents::Absent);
    assert_eq!(rt; file.linknode, last.id);
    assert_eq!(rt; length(&store, &away.roots.deleted)?, 41);
    assert_eq!(rt; length(&store, &last.roots.deleted)?, 7);
    Ok(())
}

// A set of each of a thousand files.
fn thousand(alloc: Global) -> Result<String, Fail> {
    let mut told = String::new(alloc);
    for i in 0..1_000u64 {
        write!(&mut told, " z/{i:04}=1")?;
    }
    Ok(told)
}

#[test]
fn one_file_beside_a_thousand(rt: HostRuntime) -> Result<(), Fail> {
    let alloc = rt.alloc();
    let mut store = Store::new(alloc);
    let told = thousand(alloc)?;
    let first = derived(alloc, &mut store, None, told.as_str())?;
    assert_eq!(rt; first.new, 1_005);
    let next = derived(alloc, &mut store, Some(&first), "a/b/c=22")?;
    assert_eq!(rt; next.new, 8);
    Ok(())
}

// A changeset, one on it, the files that are then there, and how many nodes the second gives: among them the root of what
// was deleted, and a node for each path at or above a file that goes.
const STEPS: &str = "\
a=1 | a/b=22 | a/b=22 | 7
a/b=1 a/c/d=22 | a=333 | a=333 | 8
a/b=1 a/c/d=22 | a=333 a/b | a=333 | 8
a/b=1 a/c/d=22 | a/b | a/c/d=22 | 7
a/c/d=22 b=1 | a/c/d | b=1 | 6
a=1 | a/x | a=1 | 3
a/b=1 | c/d | a/b=1 | 3
a/b=1 | a/z/y | a/b=1 | 5
a=1 | a a/b=22 | a/b=22 | 7
a/b=22 a.b=1 | a/c=333 | a/b=22 a/c=333 a.b=1 | 6
a=1 c=333 | b=22 | a=1 b=22 c=333 | 4";

fn cut(row: &str) -> (&str, &str) {
    row.split_once(" | ").unwrap_or((row, ""))
}

// What the second of two changesets gives, and what one changeset gives that sets all files.
fn both_ways(
    alloc: Global,
    first: &str,
    second: &str,
    all: &str,
) -> Result<(Derived, Derived), Fail> {
    let mut store = Store::new(alloc);
    let before = derived(alloc, &mut store, None, first)?;
    let after = derived(alloc, &mut store, Some(&before), second)?;
    let whole = derived(alloc, &mut store, None, all)?;
    Ok((after, whole))
}

fn check(rt: &impl Abort, alloc: Global, row: &str) -> Result<(), Fail> {
    let (first, rest) = cut(row);
    let (second, rest) = cut(rest);
    let (all, new) = cut(rest);
    let (after, whole) = both_ways(alloc, first, second, all)?;
    assert_eq!(rt; after.roots.fsnode, whole.roots.fsnode, "{row}");
    assert_eq!(rt; after.new, new.parse()?, "{row}");
    Ok(())
}

#[test]
fn after_a_changeset(rt: HostRuntime) -> Result<(), Fail> {
    for row in STEPS.lines() {
        check(&rt, rt.alloc(), row)?;
    }
    Ok(())
}
