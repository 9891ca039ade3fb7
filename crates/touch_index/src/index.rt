//! The index.
ghost use Rattle.touch_index.specs.Lists.{AreRisingTo};

use crate::entering::enter_edits;
use crate::keys::keys_of;
use crate::lists::NumberLists;
use crate::numbers::may_have_later;
use crate::range::Range;
use bonsai::Edit;
use repo_path::RepoPath;
use std::alloc::{AllocError, Global};
use std::hash::RandomState;

/// The most numbers that a question looks at.
pub const MOST_LOOKS: u32 = 4096;

/// The changesets whose numbers are below `indexed`, by the paths that they touch.
#[derive(Drop)]
pub struct TouchIndex {
    // Those that touch the path of a key.
    pub(crate) at: NumberLists,
    // Those that touch it or a path that lies under it.
    pub(crate) under: NumberLists,
    pub(crate) indexed: u32,
    ghost at_rises: { AreRisingTo indexed at },
    ghost under_rises: { AreRisingTo indexed under },
}

impl TouchIndex {
    ghost use Rattle.std.specs.Prelude.{◌≡◌, ℕ, ◌+◌, ◌<◌, ◌^◌, true, false, if◌then◌else◌, map, is_ok, Contains, OnOk};
    ghost use Rattle.std.specs.List.{All};
    ghost use Rattle.changeset_model.specs.Path.{Path, comparable};
    ghost use Rattle.touch_index.specs.Index.{Has, Keeps, paths_of};

    /// An index of no changeset, whose tables are hashed with these keys. It takes no memory.
    pub fn new(alloc: Global, keys: RandomState) -> TouchIndex
        ensures { result.indexed ≡ 0 }
    {
        TouchIndex {
            at: NumberLists::new(alloc, keys),
            under: NumberLists::new(alloc, keys),
            indexed: 0,
        }
    }

    /// How many changesets it has: those with the numbers below.
    pub fn indexed(&self) -> u32
        ensures { result ≡ self.now.indexed }
    {
        self.indexed
    }

    /// Adds the next changeset, which makes these edits.
    pub fn add(&mut self, alloc: Global, edits: &[Edit]) -> Result<(), AllocError>
        requires { self.old.indexed + 1 < 2 ^ 32 }
        ensures indexed { self.new.indexed ≡ (if is_ok result then self.old.indexed + 1 else self.old.indexed) }
        ensures keeps { Keeps self.old self.new }
        ensures touched { OnOk result (All (Has self.new self.old.indexed) (map (λ e. e.path) edits.now)) }
    {
        let number = self.indexed;
        enter_edits(&mut self.at, &mut self.under, alloc, edits, number)?;
        self.indexed = number + 1;
        Ok(())
    }

    /// Whether an indexed changeset above this number and in the range may touch a path that clashes with one of these. No
    /// means that none does.
    pub fn may_clash<R: Range>(
        &self,
        alloc: Global,
        paths: &[&RepoPath],
        above: u32,
        range: &R,
    ) -> bool
        ensures { result ≡ false → (n : ℕ) (l r : Path) → above < n → R.contains range.now n ≡ true → Has self.now n r → Contains (paths_of paths.now) l → comparable l r ≡ false }
    {
        let mut looks = MOST_LOOKS;
        'paths: for path in paths {
            if self.may_touch(alloc, path, above, range, &mut looks) {
                return true;
            }
        }
        false
    }

    // The same of one path. It looks at no more than so many numbers.
    fn may_touch<R: Range>(
        &self,
        alloc: Global,
        path: &RepoPath,
        above: u32,
        range: &R,
        looks: &mut u32,
    ) -> bool
        ensures { result ≡ false → (n : ℕ) (r : Path) → above < n → R.contains range.now n ≡ true → Has self.now n r → comparable path.now r ≡ false }
    {
        let Ok(keys) = keys_of(alloc, path) else {
            return true;
        };
        'keys: for key in keys.as_slice() {
            if may_have_later(self.at.numbers(*key), above, range, looks) {
                return true;
            }
        }
        let key = keys[keys.len() - 1];
        may_have_later(self.under.numbers(key), above, range, looks)
    }
}
