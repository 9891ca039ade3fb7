//! Files of a map in one list.
ghost use Rattle.std.specs.Prelude.{◌≡◌, true, IfOk};
ghost use Rattle.std.specs.FinMap.{is_sorted};
ghost use Rattle.changeset_model.specs.Path.{path_cmp};
ghost use Rattle.tree_fold.specs.View.{files_view};

use crate::flat::{Flat, FlatFile};
use repo_path::RepoPath;
use std::alloc::{AllocError, Global};
use std::collections::BTreeMap;
use tree_fold::File;

/// The files of a map, by their paths.
pub(crate) fn listed(alloc: Global, mut files: BTreeMap<RepoPath, File>) -> Result<Flat, AllocError>
    ensures files { IfOk result (λ flat. flat ≡ files_view files.entries) }
    ensures rising { IfOk result (λ flat. is_sorted path_cmp flat ≡ true) }
{
    let mut list = Vec::with_capacity(alloc, files.len())?;
    while let Some((path, file)) = files.pop_first() {
        list.push(FlatFile { path, file })?;
    }
    Ok(Flat { files: list })
}
