//! Edits of a changeset, applied at once.
ghost use Rattle.std.specs.Prelude.{◌≡◌, true, if◌then◌else◌, OnOk, OnErr};
ghost use Rattle.std.specs.List.{list_any};
ghost use Rattle.std.specs.Option.{option_and_then};
ghost use Rattle.std.specs.BTreeMap.{IsUnchanged};
ghost use Rattle.std.specs.FinMap.{is_sorted, find as find_key};
ghost use Rattle.changeset_model.specs.Path.{Path, path_cmp};
ghost use Rattle.changeset_model.specs.Changeset.{file_of};
ghost use Rattle.history_model.specs.Tree.{decides_at};
ghost use Rattle.bonsai.specs.View.{edits_view};
ghost use Rattle.tree_fold.specs.Fold.{IsTree, IsApart, file_in};

use crate::cleared::cleared_paths;
use crate::edited::{edit_all, remove_all};
use crate::file::File;
use crate::placed::place_new;
use bonsai::Edit;
use repo_path::RepoPath;
use std::alloc::{AllocError, Global};
use std::collections::BTreeMap;

/// Applies edits by rising paths, of which no set path lies under another. What takes memory comes first, so after an
/// error the files are as before.
pub(crate) fn apply_edits(
    alloc: Global,
    files: &mut BTreeMap<RepoPath, File>,
    edits: &[Edit],
) -> Result<(), AllocError>
    requires tree { IsTree files.old.entries }
    requires rising { is_sorted path_cmp (edits_view edits.now) ≡ true }
    requires apart { IsApart (edits_view edits.now) }
    ensures decided { OnOk result ((p : Path) → file_in files.new p ≡ (if list_any (λ e. decides_at e.1 e.0 p) (edits_view edits.now) then option_and_then file_of (find_key path_cmp p (edits_view edits.now)) else file_in files.old p)) }
    ensures err { OnErr result (IsUnchanged files.old files.new) }
    ensures tree { IsTree files.new.entries }
{
    let cleared = cleared_paths(alloc, files, edits)?;
    place_new(alloc, files, edits)?;
    edit_all(files, edits);
    remove_all(files, cleared.as_slice());
    Ok(())
}
