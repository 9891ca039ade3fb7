//! The path of a name in a directory.
ghost use Rattle.std.specs.Prelude.{◌≡◌, ◌∷◌, ◌++◌, [], if◌then◌else◌, Some, None, true, IfOk};
ghost use Rattle.changeset_model.specs.Path.{elements, is_element, is_path};
ghost use Rattle.merge_walk.specs.View.{dir_of};

use node_fields::Name;
use repo_path::{PathFault, RepoPath};
use std::alloc::{AllocError, Global};

/// The path of a name in a directory, which is the root where none is given. None where it is too long for a path.
pub(crate) fn joined(
    alloc: Global,
    dir: Option<&RepoPath>,
    name: &Name,
) -> Result<Option<RepoPath>, AllocError>
    ensures { IfOk result (λ path. path ≡ (if is_path (dir_of dir.entry ++ name.now ∷ []) then Some (dir_of dir.entry ++ name.now ∷ []) else None)) }
{
    let text = joined_text(alloc, dir, name.as_bytes())?;
    match RepoPath::from_bytes(alloc, text.as_slice()) {
        Ok(path) => Ok(Some(path)),
        Err(PathFault::BadPath { at: _ }) => Ok(None),
        Err(PathFault::Memory) => Err(AllocError),
    }
}

fn joined_text(alloc: Global, dir: Option<&RepoPath>, name: &[u8]) -> Result<Vec<u8>, AllocError>
    requires { is_element name.now ≡ true }
    ensures { IfOk result (λ text. elements text.items ≡ dir_of dir.entry ++ name.now ∷ []) }
{
    match dir {
        Some(dir) => text_under(alloc, dir, name),
        None => Vec::from_slice(alloc, name),
    }
}

fn text_under(alloc: Global, dir: &RepoPath, name: &[u8]) -> Result<Vec<u8>, AllocError>
    requires { is_element name.now ≡ true }
    ensures { IfOk result (λ text. elements text.items ≡ dir.now ++ name.now ∷ []) }
{
    let mut text = Vec::from_slice(alloc, dir.as_str().as_bytes())?;
    text.push(b'/')?;
    text.extend_from_slice(name)?;
    Ok(text)
}
