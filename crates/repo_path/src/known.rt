//! What is known of a path, and paths of texts that are known to be ones.
ghost use Rattle.std.specs.Prelude.{◌≡◌, ◌<◌, length, IfOk, IsTrue};
ghost use Rattle.changeset_model.specs.Path.{elements, is_path};

use crate::path::RepoPath;
use crate::path_fault::PathFault;
use std::alloc::{AllocError, Global};

/// The path of a text that is known to be one, in memory of its own.
pub fn path_of(alloc: Global, text: &str) -> Result<RepoPath, AllocError>
    requires { IsTrue (is_path (elements text.now)) }
    ensures { IfOk result (λ path. path ≡ elements text.now) }
{
    match RepoPath::parse(alloc, text) {
        Ok(path) => Ok(path),
        Err(PathFault::Memory) => Err(AllocError),
        Err(PathFault::BadPath { .. }) => unreachable!(),
    }
}

/// A path has elements.
pub fn has_elements(path: &RepoPath)
    ensures { 0 < length path.now }
{
    let _text = path.as_str();
}
