//! The tree of a changeset over those of its parents.
ghost use Rattle.std.specs.Prelude.{◌≡◌, true, if◌then◌else◌, IfOk};
ghost use Rattle.std.specs.Option.{option_or};
ghost use Rattle.std.specs.FinMap.{is_sorted};
ghost use Rattle.changeset_model.specs.Path.{Path, path_cmp};
ghost use Rattle.changeset_model.specs.Changeset.{set_at};
ghost use Rattle.history_model.specs.Tree.{decides, file_at};
ghost use Rattle.merge_tree.specs.View.{flats_view};

use crate::flat::{Flat, FlatFile};
use crate::listed::listed;
use crate::placed::{place_left, place_sets};
use bonsai::Changeset;
use std::alloc::{AllocError, Global};
use std::collections::BTreeMap;

/// What a changeset sets, and where it leaves a path the file of the first parent, and where the first has none that of
/// the second.
pub(crate) fn merged(
    alloc: Global,
    first: &[FlatFile],
    second: &[FlatFile],
    change: &Changeset,
) -> Result<Flat, AllocError>
    ensures files { IfOk result (λ flat. (p : Path) → file_at flat p ≡ (if decides change.now p then set_at change.now p else option_or (file_at (flats_view first.now) p) (file_at (flats_view second.now) p))) }
    ensures rising { IfOk result (λ flat. is_sorted path_cmp flat ≡ true) }
{
    let mut files = BTreeMap::new(alloc);
    place_sets(alloc, &mut files, change.edits())?;
    place_left(alloc, &mut files, first, change)?;
    place_left(alloc, &mut files, second, change)?;
    listed(alloc, files)
}
