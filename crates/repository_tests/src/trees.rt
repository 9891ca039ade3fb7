//! Trees of chains of changesets.
use crate::examples::{Example, first, path};
use crate::rows::same;
use bonsai::FileKind;
use object_id::Id;
use repo_path::RepoPath;
use std::alloc::Global;
use std::process::Abort;
use std::test::Fail;
use tree_fold::{Child, File, Tree};

/// Puts the sizes of the files at these paths, which a blank parts, with a blank between them, and `-` where no file is.
pub(crate) fn put_sizes(
    alloc: Global,
    tree: &Tree,
    out: &mut String,
    paths: &str,
) -> Result<(), Fail> {
    for text in paths.split(' ') {
        let file = file_at(alloc, tree, text)?;
        put_size(out, file)?;
    }
    Ok(())
}

fn file_at(alloc: Global, tree: &Tree, text: &str) -> Result<Option<File>, Fail> {
    let path = path(alloc, text)?;
    Ok(tree.at(&path).copied())
}

fn put_size(out: &mut String, file: Option<File>) -> Result<(), Fail> {
    if !out.is_empty() {
        out.push(' ')?;
    }
    match file {
        Some(file) => Ok(write!(out, "{}", file.size)?),
        None => Ok(out.push('-')?),
    }
}

// Applies a changeset of these edits.
fn apply(alloc: Global, tree: &mut Tree, edits: &str) -> Result<(), Fail> {
    let commit = Example { edits, ..first() }.commit(alloc)?;
    Ok(tree.apply(alloc, commit.changeset())?)
}

// A tree that takes one changeset for each of these edits, which semicolons part.
fn tree_of(alloc: Global, chain: &str) -> Result<Tree, Fail> {
    let mut tree = Tree::new(alloc);
    for edits in chain.split(';') {
        if !edits.is_empty() {
            apply(alloc, &mut tree, edits)?;
        }
    }
    Ok(tree)
}

// The names in a directory, with a slash behind each directory's.
fn listed(alloc: Global, tree: &Tree, dir: &str) -> Result<String, Fail> {
    let dir = RepoPath::parse(alloc, dir).ok();
    let children = tree.list(alloc, dir.as_ref())?;
    let mut names = String::new(alloc);
    put_names(&mut names, children.as_slice())?;
    Ok(names)
}

fn put_names(out: &mut String, children: &[Child]) -> Result<(), Fail> {
    for child in children {
        let end = if child.file.is_none() { "/" } else { "" };
        write!(out, " {}{end}", child.name.as_str())?;
    }
    Ok(())
}

// The sizes at `a`, `a/b`, `a/b/c`, `a/d` and `a.b` after a chain.
fn sizes_after(alloc: Global, chain: &str) -> Result<String, Fail> {
    let tree = tree_of(alloc, chain)?;
    let mut sizes = String::new(alloc);
    put_sizes(alloc, &tree, &mut sizes, "a a/b a/b/c a/d a.b")?;
    Ok(sizes)
}

const CHAINS: &str = "\
a/b:1 = - 1 - - -
a/b:1;a:22 = 2 - - - -
a/b:1;a:22;a/b:333 = - 3 - - -
a/b:1;a/b:333 = - 3 - - -
a:22;-a a/b:333 = - 3 - - -
a/b/c:1 a/d:22 a.b:333;a:22 = 2 - - - 3
a:22;a/b/c:1 a/d:22 a.b:333 = - - 1 2 3
a/b/c:1 a/d:22 a.b:333;a/b:1 = - 1 - 2 3
a/b/c:1 a/d:22 a.b:333;-a -c = - - 1 2 3
a:22;-a -c = - - - - -
 = - - - - -";

fn check_chain(rt: &impl Abort, alloc: Global, line: &str) -> Result<(), Fail> {
    let (chain, wanted) = line.split_once(" = ").ok_or("a row")?;
    let sizes = sizes_after(alloc, chain)?;
    same(rt, sizes.as_str(), wanted, line);
    Ok(())
}

#[test]
fn files_at_paths(rt: HostRuntime) -> Result<(), Fail> {
    for line in CHAINS.lines() {
        check_chain(&rt, rt.alloc(), line)?;
    }
    Ok(())
}

#[test]
fn what_a_file_is(rt: HostRuntime) -> Result<(), Fail> {
    let tree = tree_of(rt.alloc(), "p:333")?;
    let file = File {
        content: Id::of(b"333".as_slice()),
        kind: FileKind::Regular,
        size: 3,
    };
    assert_eq!(rt; file_at(rt.alloc(), &tree, "p")?, Some(file));
    Ok(())
}

const DIRECTORIES: &str = "\
a = x y/
c = d/ f
c/d = e
c/d/e =
b =
a. =
d =
 = a/ a.b b c/";

fn check_listed(rt: &impl Abort, alloc: Global, tree: &Tree, line: &str) -> Result<(), Fail> {
    let (dir, names) = line.split_once(" =").ok_or("a row")?;
    let found = listed(alloc, tree, dir)?;
    same(rt, found.as_str(), names, line);
    Ok(())
}

#[test]
fn directories(rt: HostRuntime) -> Result<(), Fail> {
    let tree = tree_of(rt.alloc(), "b:1 c/d/e:1 c/f:1;a/x:1 a/y/z:1 a.b:1")?;
    for line in DIRECTORIES.lines() {
        check_listed(&rt, rt.alloc(), &tree, line)?;
    }
    Ok(())
}
