//! Lines of changesets by a random number generator with a fixed seed.
use crate::changes::{commit, commit_of, path, set};
use crate::store::{Derived, Store};
use bonsai::{Change, Commit, Edit};
use repo_path::RepoPath;
use std::alloc::Global;
use std::process::Abort;
use std::test::Fail;
use tree_fold::{File, Tree};

// How many changesets a line tries to have.
const STEPS: usize = 40;

// Numbers that look random: a linear congruence modulo 2^64, of which the upper bits are taken.
#[derive(Drop)]
struct Numbers {
    state: u64,
}

impl Numbers {
    fn below_20(&mut self) -> u64 {
        self.state = self
            .state
            .wrapping_mul(6_364_136_223_846_793_005)
            .wrapping_add(1_442_695_040_888_963_407);
        (self.state >> 33) % 20
    }
}

const NAMES: [&str; 3] = ["a", "b", "c"];

fn put_path(paths: &mut Vec<RepoPath>, alloc: Global, text: &str) -> Result<(), Fail> {
    let path = path(alloc, text)?;
    Ok(paths.push(path)?)
}

// A name in a directory.
fn joined(alloc: Global, dir: &str, name: &str) -> Result<String, Fail> {
    Ok(format!(in alloc; "{dir}/{name}")?)
}

// A directory, and what each name is in it.
fn put_dir(paths: &mut Vec<RepoPath>, alloc: Global, dir: &str) -> Result<(), Fail> {
    put_path(paths, alloc, dir)?;
    for name in NAMES {
        let text = joined(alloc, dir, name)?;
        put_path(paths, alloc, text.as_str())?;
    }
    Ok(())
}

// All paths of one to three of the names `a`, `b` and `c`, rising.
fn all_paths(alloc: Global) -> Result<Vec<RepoPath>, Fail> {
    let mut paths = Vec::new(alloc);
    for one in NAMES {
        put_path(&mut paths, alloc, one)?;
        for two in NAMES {
            let text = joined(alloc, one, two)?;
            put_dir(&mut paths, alloc, text.as_str())?;
        }
    }
    Ok(paths)
}

fn put_edit(
    edits: &mut Vec<Edit>,
    alloc: Global,
    path: &RepoPath,
    change: Change,
) -> Result<(), Fail> {
    let path = path.copy(alloc)?;
    Ok(edits.push(Edit { path, change })?)
}

// Sets and deletes at some of the paths.
fn some_edits(alloc: Global, paths: &[RepoPath], numbers: &mut Numbers) -> Result<Vec<Edit>, Fail> {
    let mut edits = Vec::new(alloc);
    for path in paths {
        let change = match numbers.below_20() {
            0 => set(b"1"),
            1 => set(b"22"),
            2 | 3 => Change::Delete,
            _ => continue,
        };
        put_edit(&mut edits, alloc, path, change)?;
    }
    Ok(edits)
}

fn set_of(file: &File) -> Change {
    Change::Set {
        content: file.content,
        kind: file.kind,
        size: file.size,
        copied: None,
    }
}

// A set of each file of a tree.
fn all_files(alloc: Global, paths: &[RepoPath], tree: &Tree) -> Result<Vec<Edit>, Fail> {
    let mut edits = Vec::new(alloc);
    for path in paths {
        if let Some(file) = tree.at(path) {
            put_edit(&mut edits, alloc, path, set_of(file))?;
        }
    }
    Ok(edits)
}

// Derives one changeset that sets all files of the tree.
fn derive_whole(
    alloc: Global,
    store: &mut Store,
    paths: &[RepoPath],
    tree: &Tree,
) -> Result<Derived, Fail> {
    let files = all_files(alloc, paths, tree)?;
    let whole = commit_of(alloc, None, files)?;
    store.derive(whole, None)
}

// The changeset of some edits on the last one, if they make one.
fn next(alloc: Global, last: Option<&Derived>, edits: Vec<Edit>) -> Result<Option<Commit>, Fail> {
    let parent = match last {
        Some(last) => Some(last.id),
        None => None,
    };
    commit(alloc, parent, edits)
}

// Derives a changeset on the last one, and the tree as one changeset. The root is the same.
fn check_next(
    rt: &(impl Abort + Alloc<A = Global>),
    store: &mut Store,
    tree: &Tree,
    last: Option<&Derived>,
    next: Commit,
    paths: &[RepoPath],
) -> Result<Derived, Fail> {
    let step = store.derive(next, last)?;
    let whole = derive_whole(rt.alloc(), store, paths, tree)?;
    assert_eq!(rt; step.roots.fsnode, whole.roots.fsnode);
    Ok(step)
}

#[test]
fn a_line_and_the_whole_tree_give_one_fsnode(rt: HostRuntime) -> Result<(), Fail> {
    let alloc = rt.alloc();
    let paths = all_paths(alloc)?;
    let mut numbers = Numbers { state: 1 };
    let mut store = Store::new(alloc);
    let mut tree = Tree::new(alloc);
    let mut last: Option<Derived> = None;
    let mut count = 0u32;
    for _ in 0..STEPS {
        let edits = some_edits(alloc, &paths, &mut numbers)?;
        let Some(next) = next(alloc, last.as_ref(), edits)? else {
            continue;
        };
        tree.apply(alloc, next.changeset())?;
        let step = check_next(&rt, &mut store, &tree, last.as_ref(), next, &paths)?;
        last = Some(step);
        count = count.saturating_add(1);
    }
    assert!(rt; 10 < count);
    Ok(())
}
