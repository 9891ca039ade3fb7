//! Merges, compared with the trees that the plain program works out.
use crate::changes::{commit_of, commit_on, edits};
use crate::store::{Derived, Store, root_of};
use bonsai::{Change, Commit, Edit};
use merge_tree::{Flat, FlatFile, Lineage, MOST_MEMBERS, Parents};
use object_id::Id;
use repo_path::RepoPath;
use std::alloc::Global;
use std::process::Abort;
use std::test::Fail;

/// Changesets that were derived, and their lineage.
#[derive(Drop)]
pub(crate) struct History {
    pub(crate) alloc: Global,
    pub(crate) store: Store,
    lineage: Lineage,
}

/// A changeset of a history, by its place in the lineage.
#[derive(Clone, Copy)]
pub(crate) struct Member {
    pub(crate) derived: Derived,
    place: u32,
}

impl History {
    pub(crate) fn new(alloc: Global) -> History {
        History {
            alloc,
            store: Store::new(alloc),
            lineage: Lineage::new(alloc),
        }
    }

    /// Adds a changeset of edits that are told, without a parent.
    pub(crate) fn start(&mut self, told: &str) -> Result<Member, Fail> {
        let edits = edits(self.alloc, told)?;
        let commit = commit_of(self.alloc, None, edits)?;
        let place = self.put(&commit, None, None)?;
        let derived = self.store.derive(commit, None)?;
        Ok(Member { derived, place })
    }

    /// Adds a changeset of edits that are told on another.
    pub(crate) fn add(&mut self, before: &Member, told: &str) -> Result<Member, Fail> {
        let edits = edits(self.alloc, told)?;
        let commit = commit_of(self.alloc, Some(before.derived.id), edits)?;
        let place = self.put(&commit, Some(before.place), None)?;
        let derived = self.store.derive(commit, Some(&before.derived))?;
        Ok(Member { derived, place })
    }

    // Adds a merge with edits that are told.
    fn merge(&mut self, first: &Member, second: &Member, told: &str) -> Result<Member, Fail> {
        let edits = edits(self.alloc, told)?;
        let commit = merge_of(self.alloc, first.derived.id, second.derived.id, edits)?;
        let place = self.put(&commit, Some(first.place), Some(second.place))?;
        let before = self.tree(first.place)?;
        let now = self.tree(place)?;
        let gone = missing(self.alloc, before.files(), now.files())?;
        let come = missing(self.alloc, now.files(), before.files())?;
        let derived = self
            .store
            .derive_merge(commit, &first.derived, &second.derived, gone, come)?;
        Ok(Member { derived, place })
    }

    fn put(
        &mut self,
        commit: &Commit,
        first: Option<u32>,
        second: Option<u32>,
    ) -> Result<u32, Fail> {
        if MOST_MEMBERS <= self.lineage.len() {
            return Err(Fail::from("too many changesets"));
        }
        let parents = Parents { first, second };
        Ok(self.lineage.add(self.alloc, parents, commit.changeset())?)
    }

    fn tree(&self, place: u32) -> Result<Flat, Fail> {
        if self.lineage.len() <= place as usize {
            return Err(Fail::from("a place"));
        }
        Ok(self.lineage.tree_of(self.alloc, place)?)
    }

    // The length of a node.
    fn length(&self, id: &Id) -> Result<usize, Fail> {
        Ok(self.store.bytes(id)?.len())
    }

    // The unode of a file in the root of a changeset.
    fn file(&self, at: &Member, name: &str) -> Result<Id, Fail> {
        self.store.file_in(root_of(&at.derived.roots), name)
    }
}

/// The changeset that edits make on two parents.
pub(crate) fn merge_of(
    alloc: Global,
    first: Id,
    second: Id,
    edits: Vec<Edit>,
) -> Result<Commit, Fail> {
    let mut parents = Vec::new(alloc);
    parents.push(first)?;
    parents.push(second)?;
    match commit_on(alloc, parents, edits)? {
        Some(commit) => Ok(commit),
        None => Err(Fail::from("a merge")),
    }
}

fn has_path(files: &[FlatFile], path: &RepoPath) -> bool {
    files.iter().any(|file| file.path == *path)
}

// The paths of the files that aren't among the others.
fn missing(alloc: Global, files: &[FlatFile], others: &[FlatFile]) -> Result<Vec<RepoPath>, Fail> {
    let mut missing = Vec::new(alloc);
    for file in files {
        if !has_path(others, &file.path) {
            missing.push(file.path.copy(alloc)?)?;
        }
    }
    Ok(missing)
}

// A set of each file.
fn all_sets(alloc: Global, files: &[FlatFile]) -> Result<Vec<Edit>, Fail> {
    let mut edits = Vec::new(alloc);
    for file in files {
        let change = Change::Set {
            content: file.file.content,
            kind: file.file.kind,
            size: file.file.size,
            copied: None,
        };
        let path = file.path.copy(alloc)?;
        edits.push(Edit { path, change })?;
    }
    Ok(edits)
}

// The fsnode of a changeset is that of one that sets all files of its tree.
fn check_tree(
    rt: &(impl Abort + Alloc<A = Global>),
    history: &mut History,
    at: &Member,
) -> Result<(), Fail> {
    let tree = history.tree(at.place)?;
    let sets = all_sets(rt.alloc(), tree.files())?;
    let whole = history
        .store
        .derive(commit_of(rt.alloc(), None, sets)?, None)?;
    assert_eq!(rt; at.derived.roots.fsnode, whole.roots.fsnode);
    Ok(())
}

#[test]
fn a_merge_without_changes(rt: HostRuntime) -> Result<(), Fail> {
    let mut history = History::new(rt.alloc());
    let base = history.start("")?;
    let x = history.add(&base, "x=1")?;
    let y = history.add(&base, "y=22")?;
    let merge = history.merge(&x, &y, "")?;
    check_tree(&rt, &mut history, &merge)?;
    assert_eq!(rt; history.length(&merge.derived.roots.unode)?, 173);
    assert_eq!(rt; history.file(&merge, "x")?, history.file(&x, "x")?);
    assert_eq!(rt; history.file(&merge, "y")?, history.file(&y, "y")?);
    Ok(())
}

#[test]
fn a_file_that_both_parents_have(rt: HostRuntime) -> Result<(), Fail> {
    let mut history = History::new(rt.alloc());
    let base = history.start("")?;
    let x = history.add(&base, "x=1")?;
    let other = history.add(&base, "x=")?;
    let merge = history.merge(&x, &other, "x=22")?;
    check_tree(&rt, &mut history, &merge)?;
    assert_eq!(rt; history.length(&history.file(&merge, "x")?)?, 164);
    // Set alike by both, it has a new unode on both too.
    let alike = history.add(&base, "x=1 y=1")?;
    let merge = history.merge(&x, &alike, "")?;
    check_tree(&rt, &mut history, &merge)?;
    assert_eq!(rt; history.length(&history.file(&merge, "x")?)?, 164);
    Ok(())
}

#[test]
fn a_file_against_a_directory(rt: HostRuntime) -> Result<(), Fail> {
    let mut history = History::new(rt.alloc());
    let base = history.start("d/k=1 e=2")?;
    let file = history.add(&base, "a=1 d/l=3")?;
    let dir = history.add(&base, "a/b=22 a/c=3 d/m=4")?;
    let to_file = history.merge(&file, &dir, "a=4")?;
    check_tree(&rt, &mut history, &to_file)?;
    let to_dir = history.merge(&file, &dir, "a")?;
    check_tree(&rt, &mut history, &to_dir)?;
    let from_dir = history.merge(&dir, &file, "a/b a/c")?;
    check_tree(&rt, &mut history, &from_dir)?;
    let to_nothing = history.merge(&dir, &file, "a a/b a/c")?;
    check_tree(&rt, &mut history, &to_nothing)?;
    let above = history.merge(&dir, &file, "a/b/c=5")?;
    check_tree(&rt, &mut history, &above)?;
    Ok(())
}

#[test]
fn a_criss_cross(rt: HostRuntime) -> Result<(), Fail> {
    let mut history = History::new(rt.alloc());
    let base = history.start("a/b/c=1 a/d=2 e=3")?;
    let left = history.add(&base, "a/b/n=4 f/g=5")?;
    let right = history.add(&base, "a/d f/h=7 g=6")?;
    let one = history.merge(&left, &right, "")?;
    let two = history.merge(&right, &left, "")?;
    check_tree(&rt, &mut history, &one)?;
    check_tree(&rt, &mut history, &two)?;
    assert_eq!(rt; one.derived.roots.fsnode, two.derived.roots.fsnode);
    let left = history.add(&one, "a/b/i=8")?;
    let right = history.add(&two, "f/g f/j/k=9")?;
    // Merges of merges, each directory of which both parents have made anew.
    let top = history.merge(&left, &right, "")?;
    check_tree(&rt, &mut history, &top)?;
    let last = history.merge(&top, &two, "a/b=1")?;
    check_tree(&rt, &mut history, &last)?;
    Ok(())
}
