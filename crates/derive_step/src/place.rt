//! Where a path lies, seen from a directory.
ghost use Rattle.std.specs.Prelude.{◌≡◌, ◌<◌, ◌++◌, ◌∷◌, [], List, ℕ, length, drop, true, false, if◌then◌else◌, Some, None, IfOk, IfSome, IfNone, IsTrue, option_map};
ghost use Rattle.changeset_model.specs.Path.{Path, elements, is_element, is_path, is_strict_prefix};
ghost use Rattle.derive_step.specs.Places.{dir_of, is_in, IsPlace};

use node_fields::Name;
use repo_path::{PathFault, RepoPath, path_of};
use std::alloc::{AllocError, Global};

/// Where a path lies, seen from a directory.
#[derive(Clone, Copy)]
pub(crate) enum Place<'a> {
    Outside,
    /// Directly in the directory, under this name.
    Here(&'a [u8]),
    /// Under the directory of this name, and the text of the path from there.
    Under(&'a [u8], &'a str),
}

/// Where a path lies, seen from a directory or the root.
pub(crate) fn place_in<'a>(path: &'a RepoPath, dir: Option<&RepoPath>) -> Place<'a>
    ensures { IsPlace result (dir_of dir.entry) path.now }
{
    let Some(text) = text_in(path, dir) else {
        return Place::Outside;
    };
    let (name, rest) = parted(text);
    match rest {
        None => Place::Here(name),
        Some(rest) => Place::Under(name, rest),
    }
}

// The first element of a path, and the rest if there is one.
fn parted(text: &str) -> (&[u8], Option<&str>)
    ensures alone { IfNone result.1 (elements text.now ≡ result.0.now ∷ []) }
    ensures more { IfSome result.1 (λ rest. elements text.now ≡ result.0.now ∷ elements rest.now) }
{
    match text.split_once('/') {
        None => (text.as_bytes(), None),
        Some((name, rest)) => (name.as_bytes(), Some(rest)),
    }
}

// The text of a path from a directory on, if it lies in it.
fn text_in<'a>(path: &'a RepoPath, dir: Option<&RepoPath>) -> Option<&'a str>
    ensures inside { IfSome result (λ text. path.now ≡ dir_of dir.entry ++ elements text.now) }
    ensures outside { IfNone result (is_in dir.entry path.now ≡ false) }
    ensures path { IsTrue (is_path path.now) }
{
    match dir {
        Some(dir) => text_under(path, dir),
        None => Some(path.as_str()),
    }
}

fn text_under<'a>(path: &'a RepoPath, dir: &RepoPath) -> Option<&'a str>
    ensures inside { IfSome result (λ text. path.now ≡ dir.now ++ elements text.now) }
    ensures outside { IfNone result (is_strict_prefix dir.now path.now ≡ false) }
    ensures path { IsTrue (is_path path.now) }
{
    let Some(rest) = path.as_str().strip_prefix(dir.as_str()) else {
        return None;
    };
    rest.strip_prefix('/')
}

/// The directory above a path, unless that is the root.
pub fn text_above(text: &str) -> Option<&str>
    ensures inside { IfSome result (λ above. (name : List ℕ) × (elements text.now ≡ elements above.now ++ name ∷ [])) }
    ensures outside { IfNone result (elements text.now ≡ text.now ∷ []) }
{
    match text.rsplit_once('/') {
        Some((above, _)) => Some(above),
        None => None,
    }
}

/// The directory that a path lies under, which the rest of the path follows.
pub(crate) fn dir_before(alloc: Global, path: &RepoPath, rest: &str) -> Result<RepoPath, AllocError>
    requires { (d : Path) × (0 < length d) × (path.now ≡ d ++ elements rest.now) }
    ensures { (d : Path) → path.now ≡ d ++ elements rest.now → IfOk result (λ dir. dir ≡ d) }
{
    let Some(front) = path.as_str().strip_suffix(rest) else {
        unreachable!()
    };
    let Some(text) = front.strip_suffix('/') else {
        unreachable!()
    };
    path_of(alloc, text)
}

/// The path of a name in a directory, or in the root. None where it is too long for a path.
pub(crate) fn child_in(
    alloc: Global,
    dir: Option<&RepoPath>,
    name: &Name,
) -> Result<Option<RepoPath>, AllocError>
    ensures { IfOk result (λ path. path ≡ (if is_path (dir_of dir.entry ++ name.now ∷ []) then Some (dir_of dir.entry ++ name.now ∷ []) else None)) }
{
    let text = child_text(alloc, dir, name.as_bytes())?;
    match RepoPath::from_bytes(alloc, text.as_slice()) {
        Ok(path) => Ok(Some(path)),
        Err(PathFault::BadPath { at: _ }) => Ok(None),
        Err(PathFault::Memory) => Err(AllocError),
    }
}

fn child_text(alloc: Global, dir: Option<&RepoPath>, name: &[u8]) -> Result<Vec<u8>, AllocError>
    requires { is_element name.now ≡ true }
    ensures { IfOk result (λ text. elements text.items ≡ dir_of dir.entry ++ name.now ∷ []) }
{
    match dir {
        Some(dir) => text_with(alloc, dir, name),
        None => Vec::from_slice(alloc, name),
    }
}

fn text_with(alloc: Global, dir: &RepoPath, name: &[u8]) -> Result<Vec<u8>, AllocError>
    requires { is_element name.now ≡ true }
    ensures { IfOk result (λ text. elements text.items ≡ dir.now ++ name.now ∷ []) }
{
    let mut text = Vec::from_slice(alloc, dir.as_str().as_bytes())?;
    text.push(b'/')?;
    text.extend_from_slice(name)?;
    Ok(text)
}
