//! The children of a directory.
ghost use Rattle.std.specs.Prelude.{◌≡◌, ◌==◌, ◌++◌, ◌∷◌, [], List, false, length, map, drop, Some, option_map, IfOk, OnOk, IfSome, IfNone, IsTrue};
ghost use Rattle.std.specs.Range.Bound.{bound_map};
ghost use Rattle.changeset_model.specs.Path.{Path, elements, is_strict_prefix};
ghost use Rattle.changeset_model.specs.Changeset.{File as ModelFile};
ghost use Rattle.history_model.specs.Tree.{first_element, below, children};
ghost use Rattle.tree_fold.specs.View.{file_view, files_view, child_view};
ghost use Rattle.tree_fold.specs.Listing.{dir_path, start_bound, is_in, is_again, listed};

use crate::child::Child;
use crate::file::File;
use repo_path::RepoPath;
use std::alloc::{AllocError, Global};
use std::collections::BTreeMap;
use std::ops::Bound;

/// What stands directly in a directory, by rising names.
pub(crate) fn list_dir(
    alloc: Global,
    files: &BTreeMap<RepoPath, File>,
    dir: Option<&RepoPath>,
) -> Result<Vec<Child>, AllocError>
    ensures { IfOk result (λ cs. map child_view cs.items ≡ children (below (dir_path dir.entry) (files_view files.now.entries))) }
{
    let mut children = Vec::new(alloc);
    let mut before = None;
    for (path, file) in files.range((start_of(dir), Bound::Unbounded)) {
        let Some(text) = text_in(path, dir) else {
            return Ok(children);
        };
        before = Some(push_first(alloc, &mut children, before, text, file)?);
    }
    Ok(children)
}

// Where the files of a directory start.
fn start_of(dir: Option<&RepoPath>) -> Bound<&RepoPath>
    ensures { bound_map (λ p. p.now) result ≡ start_bound dir.entry }
{
    match dir {
        Some(dir) => Bound::Excluded(dir),
        None => Bound::Unbounded,
    }
}

// Appends the first element of a path, unless it is the one before. Gives its name.
fn push_first<'a>(
    alloc: Global,
    children: &mut Vec<Child>,
    before: Option<&str>,
    text: &'a str,
    file: &File,
) -> Result<&'a str, AllocError>
    ensures { IfOk result (λ name. (later : List (Path × ModelFile)) → map child_view children.new.items ++ listed (Some name.now) later ≡ map child_view children.old.items ++ listed (option_map (λ n. n.now) before.entry) ((elements text.now, file_view file.now) ∷ later)) }
{
    let (name, is_file) = split_name(text);
    if is_same(before, name) {
        return Ok(name);
    }
    push_child(alloc, children, name, is_file.then_some(*file))?;
    Ok(name)
}

// The text of a path from a directory on, if it lies in it.
fn text_in<'a>(path: &'a RepoPath, dir: Option<&RepoPath>) -> Option<&'a str>
    ensures inside { IfSome result (λ text. IsTrue (is_in dir.entry path.now) × (elements text.now ≡ drop (length (dir_path dir.entry)) path.now)) }
    ensures outside { IfNone result (is_in dir.entry path.now ≡ false) }
{
    match dir {
        Some(dir) => text_under(path, dir),
        None => Some(path.as_str()),
    }
}

fn text_under<'a>(path: &'a RepoPath, dir: &RepoPath) -> Option<&'a str>
    ensures inside { IfSome result (λ text. IsTrue (is_strict_prefix dir.now path.now) × (elements text.now ≡ drop (length dir.now) path.now)) }
    ensures outside { IfNone result (is_strict_prefix dir.now path.now ≡ false) }
{
    let Some(rest) = path.as_str().strip_prefix(dir.as_str()) else {
        return None;
    };
    rest.strip_prefix('/')
}

// The first element, and whether it is the only one.
fn split_name(text: &str) -> (&str, bool)
    ensures name { first_element (elements text.now) ≡ Some result.0.now }
    ensures alone { result.1 ≡ (length (elements text.now) == 1) }
{
    match text.split_once('/') {
        Some((name, _)) => (name, false),
        None => (text, true),
    }
}

fn is_same(before: Option<&str>, name: &str) -> bool
    ensures { result ≡ is_again (option_map (λ n. n.now) before.entry) name.now }
{
    match before {
        Some(before) => before == name,
        None => false,
    }
}

fn push_child(
    alloc: Global,
    children: &mut Vec<Child>,
    name: &str,
    file: Option<File>,
) -> Result<(), AllocError>
    ensures { OnOk result (map child_view children.new.items ≡ map child_view children.old.items ++ (name.now, option_map file_view file) ∷ []) }
{
    let name = String::from_str(alloc, name)?;
    children.push(Child { name, file })?;
    Ok(())
}
