//! The least clash with paths that come one at a time, in any order.
ghost use Rattle.std.specs.Prelude.{◌≡◌, ℕ, ◌+◌, ◌-◌, ◌*◌, ◌^◌, ◌≤◌, ◌++◌, List, [], ◌∷◌, length, true, false};
ghost use Rattle.changeset_model.specs.Path.{Path, path_lt, IsRising};
ghost use Rattle.path_conflict.specs.Places.{paths_of, AreApart};
ghost use Rattle.path_conflict.specs.Best.{IsBest};

use crate::counted::CountedPaths;
use crate::search::first_comparable;
use ancestry::Steps;
use repo_path::RepoPath;
use std::sync::ledger::Ledger;

/// A path that clashes with the one at a place of a list.
#[derive(Clone, Copy)]
pub struct Met<'a> {
    pub place: usize,
    pub path: &'a RepoPath,
}

/// The least clash of a list with the paths held against it so far and with one more, where no path of the list lies under
/// another one. The steps, each a comparison of two paths, are three more than the length has binary digits, at most.
pub fn lesser_clash<'a, L: Ledger>(
    among: &[&RepoPath],
    least: Option<Met<'a>>,
    path: &'a RepoPath,
    steps: &mut Steps<L>,
) -> Option<Met<'a>>
    requires rising { IsRising (paths_of among.now) }
    requires apart { AreApart (paths_of among.now) }
    ensures best { (seen : List Path) → IsBest (paths_of among.now) seen least.entry → IsBest (paths_of among.now) (seen ++ path.now ∷ []) result }
    ensures counted { steps.old ≤ steps.new }
    ensures cost { 2 ^ (steps.new - steps.old) ≤ 8 * (2 * length among.now + 1) }
{
    let Some(place) = first_comparable(among, path, steps) else {
        return least;
    };
    let Some(before) = least else {
        return Some(Met { place, path });
    };
    if before.place < place {
        return Some(before);
    }
    if place < before.place {
        return Some(Met { place, path });
    }
    if is_lesser(path, before.path, steps) {
        Some(Met { place, path })
    } else {
        Some(before)
    }
}

// Whether a path comes before another one, at the cost of a step.
fn is_lesser<L: Ledger>(path: &RepoPath, than: &RepoPath, steps: &mut Steps<L>) -> bool
    ensures before { result ≡ path_lt path.now than.now }
    ensures step { steps.new ≡ steps.old + 1 }
{
    let path = [path];
    let than = [than];
    CountedPaths::new(&path).is_before(0, &CountedPaths::new(&than), 0, steps)
}
