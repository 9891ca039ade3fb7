//! Changesets of a few edits. An edit is told as `a/b=22`, which sets the file `a/b` to `22`, or as `a/b`, which deletes it.
use bonsai::{Change, Changeset, Commit, Edit, Fields, FileKind, Version};
use object_id::Id;
use repo_path::RepoPath;
use std::alloc::{AllocError, Global};
use std::test::Fail;

/// A path that is spelled so.
pub(crate) fn path(alloc: Global, text: &str) -> Result<RepoPath, Fail> {
    match RepoPath::parse(alloc, text) {
        Ok(path) => Ok(path),
        Err(_) => Err(Fail::from("a path")),
    }
}

// The edit that is told so.
fn edit(alloc: Global, told: &str) -> Result<Edit, Fail> {
    let (name, change) = match told.split_once('=') {
        Some((name, content)) => (name, set(content.as_bytes())),
        None => (told, Change::Delete),
    };
    let path = path(alloc, name)?;
    Ok(Edit { path, change })
}

/// The set of a regular file with this content.
pub(crate) fn set(content: &[u8]) -> Change {
    Change::Set {
        content: Id::of(content),
        kind: FileKind::Regular,
        size: content.len().min(1_000) as u64,
        copied: None,
    }
}

fn parents(alloc: Global, parent: Option<Id>) -> Result<Vec<Id>, AllocError> {
    let mut parents = Vec::new(alloc);
    if let Some(parent) = parent {
        parents.push(parent)?;
    }
    Ok(parents)
}

fn fields(alloc: Global, parents: Vec<Id>, edits: Vec<Edit>) -> Result<Fields, AllocError> {
    let author = String::from_str(alloc, "a")?;
    Ok(Fields {
        version: Version::First,
        parents,
        author,
        seconds: 0,
        offset: 0,
        message: String::new(alloc),
        edits,
    })
}

fn changeset(alloc: Global, fields: Fields) -> Option<Changeset> {
    Changeset::from_fields(alloc, fields).ok()
}

/// The changeset of these edits on a parent, if they make one.
pub(crate) fn commit(
    alloc: Global,
    parent: Option<Id>,
    edits: Vec<Edit>,
) -> Result<Option<Commit>, Fail> {
    let parents = parents(alloc, parent)?;
    commit_on(alloc, parents, edits)
}

/// The changeset of these edits on parents, if they make one.
pub(crate) fn commit_on(
    alloc: Global,
    parents: Vec<Id>,
    edits: Vec<Edit>,
) -> Result<Option<Commit>, Fail> {
    let fields = fields(alloc, parents, edits)?;
    match changeset(alloc, fields) {
        Some(changeset) => Ok(Some(Commit::of(alloc, changeset)?)),
        None => Ok(None),
    }
}

/// The changeset that edits make on a parent.
pub(crate) fn commit_of(
    alloc: Global,
    parent: Option<Id>,
    edits: Vec<Edit>,
) -> Result<Commit, Fail> {
    match commit(alloc, parent, edits)? {
        Some(commit) => Ok(commit),
        None => Err(Fail::from("a changeset")),
    }
}

/// The edits that are told, with spaces between.
pub(crate) fn edits(alloc: Global, told: &str) -> Result<Vec<Edit>, Fail> {
    let mut edits = Vec::new(alloc);
    for one in told.split(' ') {
        if !one.is_empty() {
            edits.push(edit(alloc, one)?)?;
        }
    }
    Ok(edits)
}
