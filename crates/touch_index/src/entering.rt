//! A changeset is entered into lists by the keys of the paths that it touches.
ghost use Rattle.std.specs.Prelude.{map, OnOk};
ghost use Rattle.std.specs.List.{All};
ghost use Rattle.touch_index.specs.Lists.{AreRisingTo, KeepAll};
ghost use Rattle.touch_index.specs.Entered.{IsEntered};

use crate::keys::keys_of;
use crate::lists::NumberLists;
use bonsai::Edit;
use repo_path::RepoPath;
use std::alloc::{AllocError, Global};

/// Enters the changeset of a number, which makes these edits, by the paths themselves and by all at or above them.
pub(crate) fn enter_edits(
    at: &mut NumberLists,
    under: &mut NumberLists,
    alloc: Global,
    edits: &[Edit],
    number: u32,
) -> Result<(), AllocError>
    requires at_rises { AreRisingTo number at.old }
    requires under_rises { AreRisingTo number under.old }
    ensures at_rises { AreRisingTo number at.new }
    ensures under_rises { AreRisingTo number under.new }
    ensures at_keeps { KeepAll at.old at.new }
    ensures under_keeps { KeepAll under.old under.new }
    ensures entered { OnOk result (All (IsEntered at.new under.new number) (map (λ e. e.path) edits.now)) }
{
    'edits: for edit in edits {
        enter_path(at, under, alloc, &edit.path, number)?;
    }
    Ok(())
}

fn enter_path(
    at: &mut NumberLists,
    under: &mut NumberLists,
    alloc: Global,
    path: &RepoPath,
    number: u32,
) -> Result<(), AllocError>
    requires at_rises { AreRisingTo number at.old }
    requires under_rises { AreRisingTo number under.old }
    ensures at_rises { AreRisingTo number at.new }
    ensures under_rises { AreRisingTo number under.new }
    ensures at_keeps { KeepAll at.old at.new }
    ensures under_keeps { KeepAll under.old under.new }
    ensures entered { OnOk result (IsEntered at.new under.new number path.now) }
{
    let keys = keys_of(alloc, path)?;
    'keys: for key in keys.as_slice() {
        under.enter(alloc, *key, number)?;
    }
    at.enter(alloc, keys[keys.len() - 1], number)
}
