//! The directories that a changeset touches: those above its change paths, and those of which both parents have different
//! unodes.
ghost use Rattle.std.specs.Prelude.{◌≡◌, ◌==◌, ◌&&◌, ◌||◌, not, true, length, OnOk, IfOk, IsTrue, option_map};
ghost use Rattle.std.specs.List.{list_any};
ghost use Rattle.std.specs.BTreeMap.{get};
ghost use Rattle.std.specs.BTreeSet.{contains};
ghost use Rattle.bonsai.specs.View.{edits_view};
ghost use Rattle.changeset_model.specs.Path.{Path, elements, is_path, is_strict_prefix, path_cmp};
ghost use Rattle.derive_step.specs.Touched.{is_above, differ_in, is_other, IsWhole};
ghost use Rattle.derive_step.specs.Views.{before_seen};

use crate::place::text_above;
use crate::renewal::Dirs;
use bonsai::Edit;
use object_id::Id;
use repo_path::{RepoPath, has_elements, path_of};
use std::alloc::{AllocError, Global};
use std::collections::BTreeSet;

/// The directories above the paths of edits, without the root.
pub(crate) fn touched_dirs(alloc: Global, edits: &[Edit]) -> Result<BTreeSet<RepoPath>, AllocError>
    ensures { IfOk result (λ dirs. (p : Path) → contains path_cmp dirs p ≡ list_any (λ e. is_above p e.0) (edits_view edits.now)) }
{
    let mut dirs = BTreeSet::new(alloc);
    for edit in edits {
        add_above(alloc, edit.path.as_str(), &mut dirs)?;
    }
    Ok(dirs)
}

// Adds the directories above a path. Where one is there, all above it are.
fn add_above(alloc: Global, path: &str, dirs: &mut BTreeSet<RepoPath>) -> Result<(), AllocError>
    requires path { IsTrue (is_path (elements path.now)) }
    requires whole { IsWhole dirs.old }
    ensures added { OnOk result ((p : Path) → contains path_cmp dirs.new p ≡ (contains path_cmp dirs.old p || is_above p (elements path.now))) }
    ensures whole { OnOk result (IsWhole dirs.new) }
{
    let mut text = path;
    while let Some(above) = text_above(text) {
        let dir = path_of(alloc, above)?;
        if !dirs.insert(dir)? {
            return Ok(());
        }
        text = above;
    }
    Ok(())
}

/// Adds the directories other than the root of which both parents have different unodes.
pub(crate) fn add_differing(
    alloc: Global,
    first: &Dirs,
    second: &Dirs,
    dirs: &mut BTreeSet<RepoPath>,
) -> Result<(), AllocError>
    ensures { OnOk result ((p : Path) → contains path_cmp dirs.new p ≡ (contains path_cmp dirs.old p || (not (length p == 0) && differ_in first.now second.now p))) }
{
    for (dir, nodes) in first {
        if has_other(second, dir, &nodes.unode_id) {
            has_elements(dir);
            dirs.insert(dir.copy(alloc)?)?;
        }
    }
    Ok(())
}

// Whether a directory is there with another unode.
fn has_other(dirs: &Dirs, dir: &RepoPath, id: &Id) -> bool
    ensures { result ≡ is_other id.now (option_map before_seen (get path_cmp dirs.now dir.now)) }
{
    match dirs.get(dir) {
        Some(nodes) => *id != nodes.unode_id,
        None => false,
    }
}
