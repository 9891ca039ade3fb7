//! Trees of changesets with two parents.
use crate::texts::path;
use bonsai::{Change, Changeset, Edit, Fields, FileKind, Version};
use merge_tree::{Flat, Lineage, Parents, unresolved};
use object_id::Id;
use repo_path::RepoPath;
use std::alloc::{AllocError, Global};
use std::test::Fail;

const ALONE: Parents = Parents {
    first: None,
    second: None,
};

fn on(parent: u32) -> Parents {
    Parents {
        first: Some(parent),
        second: None,
    }
}

fn fields(alloc: Global, edits: Vec<Edit>) -> Result<Fields, AllocError> {
    Ok(Fields {
        version: Version::First,
        parents: Vec::new(alloc),
        author: String::from_str(alloc, "a")?,
        seconds: 0,
        offset: 0,
        message: String::new(alloc),
        edits,
    })
}

fn changeset_of(alloc: Global, edits: Vec<Edit>) -> Result<Changeset, Fail> {
    match Changeset::from_fields(alloc, fields(alloc, edits)?) {
        Ok(changeset) => Ok(changeset),
        Err(_) => Err(Fail::from("a changeset")),
    }
}

// A changeset without edits.
fn empty(alloc: Global) -> Result<Changeset, Fail> {
    changeset_of(alloc, Vec::new(alloc))
}

// One that sets a file to this content.
fn sets(alloc: Global, name: &str, content: &str) -> Result<Changeset, Fail> {
    let change = Change::Set {
        content: Id::of(content.as_bytes()),
        kind: FileKind::Regular,
        size: 1,
        copied: None,
    };
    let mut edits = Vec::new(alloc);
    let path = path(alloc, name)?;
    edits.push(Edit { path, change })?;
    changeset_of(alloc, edits)
}

fn is_at(alloc: Global, tree: &Flat, name: &str) -> Result<bool, Fail> {
    Ok(tree.at(&path(alloc, name)?).is_some())
}

fn is_named(path: Option<RepoPath>, name: &str) -> bool {
    match &path {
        Some(path) => path.as_str() == name,
        None => false,
    }
}

#[test]
fn a_merge_has_the_files_of_both_parents(rt: HostRuntime) -> Result<(), Fail> {
    let alloc = rt.alloc();
    let mut lineage = Lineage::new(alloc);
    let base = lineage.add(alloc, ALONE, &sets(alloc, "b", "1")?)?;
    let left = lineage.add(alloc, on(base), &sets(alloc, "x", "1")?)?;
    let right = lineage.add(alloc, on(base), &sets(alloc, "y", "1")?)?;
    let both = Parents {
        first: Some(left),
        second: Some(right),
    };
    let merge = lineage.add(alloc, both, &empty(alloc)?)?;
    let tree = lineage.tree_of(alloc, merge)?;
    assert_eq!(rt; tree.files().len(), 3);
    assert!(rt;
        is_at(alloc, &tree, "b")? && is_at(alloc, &tree, "x")? && is_at(alloc, &tree, "y")?
    );
    Ok(())
}

#[test]
fn parents_that_do_not_agree_are_told(rt: HostRuntime) -> Result<(), Fail> {
    let alloc = rt.alloc();
    let mut lineage = Lineage::new(alloc);
    let left = lineage.add(alloc, ALONE, &sets(alloc, "x", "1")?)?;
    let right = lineage.add(alloc, ALONE, &sets(alloc, "x", "2")?)?;
    let here = lineage.tree_of(alloc, left)?;
    let there = lineage.tree_of(alloc, right)?;
    assert!(rt; is_named(unresolved(alloc, &here, &there, &empty(alloc)?)?, "x"));
    assert!(rt; unresolved(alloc, &here, &there, &sets(alloc, "x", "3")?)?.is_none());
    assert!(rt; unresolved(alloc, &here, &here, &empty(alloc)?)?.is_none());
    Ok(())
}
