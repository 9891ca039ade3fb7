//! The search for a path among paths that stand apart.
ghost use Rattle.std.specs.Prelude.{◌≡◌, ℕ, ◌+◌, ◌-◌, ◌*◌, ◌^◌, ◌<◌, ◌≤◌, ◌⊎◌, length, true, false, IfSome, IfNone, [], slice_index_or};
ghost use Rattle.changeset_model.specs.Path.{comparable, path_lt, IsRising};
ghost use Rattle.path_conflict.specs.Places.{paths_of, AreApart};

use crate::counted::CountedPaths;
use ancestry::Steps;
use repo_path::RepoPath;
use std::sync::ledger::Ledger;

/// The first path of a list that is equal to, above or under another path, where no path of the list lies under another
/// one. The steps, each a comparison of two paths, are two more than the length has binary digits, at most. It takes no
/// memory.
pub(crate) fn first_comparable<L: Ledger>(
    among: &[&RepoPath],
    path: &RepoPath,
    steps: &mut Steps<L>,
) -> Option<usize>
    requires rising { IsRising (paths_of among.now) }
    requires apart { AreApart (paths_of among.now) }
    ensures within { IfSome result (λ k. k < length among.now) }
    ensures found { IfSome result (λ k. comparable (slice_index_or (paths_of among.now) k []) path.now ≡ true) }
    ensures first { IfSome result (λ k. (i : ℕ) → i < k → comparable (slice_index_or (paths_of among.now) i []) path.now ≡ false) }
    ensures none { IfNone result ((i : ℕ) → i < length among.now → comparable (slice_index_or (paths_of among.now) i []) path.now ≡ false) }
    ensures counted { steps.old ≤ steps.new }
    ensures cost { 2 ^ (steps.new - steps.old) ≤ 4 * (2 * length among.now + 1) }
{
    let one = [path];
    beside(&CountedPaths::new(among), &CountedPaths::new(&one), steps)
}

// The same, for the only path of a list. It can only be one of the two paths between which that path would stand.
fn beside<L: Ledger>(
    among: &CountedPaths,
    one: &CountedPaths,
    steps: &mut Steps<L>,
) -> Option<usize>
    requires one { length one.now.paths.now ≡ 1 }
    requires rising { IsRising (paths_of among.now.paths.now) }
    requires apart { AreApart (paths_of among.now.paths.now) }
    ensures within { IfSome result (λ k. k < length among.now.paths.now) }
    ensures found { IfSome result (λ k. comparable (slice_index_or (paths_of among.now.paths.now) k []) (slice_index_or (paths_of one.now.paths.now) 0 []) ≡ true) }
    ensures first { IfSome result (λ k. (i : ℕ) → i < k → comparable (slice_index_or (paths_of among.now.paths.now) i []) (slice_index_or (paths_of one.now.paths.now) 0 []) ≡ false) }
    ensures none { IfNone result ((i : ℕ) → i < length among.now.paths.now → comparable (slice_index_or (paths_of among.now.paths.now) i []) (slice_index_or (paths_of one.now.paths.now) 0 []) ≡ false) }
    ensures counted { steps.old ≤ steps.new }
    ensures cost { 2 ^ (steps.new - steps.old) ≤ 4 * (2 * length among.now.paths.now + 1) }
{
    let at = count_before(among, one, steps);
    if is_last_comparable(among, at, one, steps) {
        return Some(at - 1);
    }
    if is_next_comparable(among, at, one, steps) {
        return Some(at);
    }
    None
}

// Whether the last path before a place is comparable with the only path of another list.
fn is_last_comparable<L: Ledger>(
    among: &CountedPaths,
    at: usize,
    one: &CountedPaths,
    steps: &mut Steps<L>,
) -> bool
    requires within { at ≤ length among.now.paths.now }
    requires one { length one.now.paths.now ≡ 1 }
    ensures some { result ≡ true → 0 < at }
    ensures comparable { result ≡ true → comparable (slice_index_or (paths_of among.now.paths.now) (at - 1) []) (slice_index_or (paths_of one.now.paths.now) 0 []) ≡ true }
    ensures apart { result ≡ false → (at ≡ 0) ⊎ (comparable (slice_index_or (paths_of among.now.paths.now) (at - 1) []) (slice_index_or (paths_of one.now.paths.now) 0 []) ≡ false) }
    ensures counted { steps.old ≤ steps.new }
    ensures cost { steps.new ≤ steps.old + 1 }
{
    if at == 0 {
        return false;
    }
    among.is_comparable(at - 1, one, 0, steps)
}

// Whether the path at a place is comparable with the only path of another list.
fn is_next_comparable<L: Ledger>(
    among: &CountedPaths,
    at: usize,
    one: &CountedPaths,
    steps: &mut Steps<L>,
) -> bool
    requires within { at ≤ length among.now.paths.now }
    requires one { length one.now.paths.now ≡ 1 }
    ensures some { result ≡ true → at < length among.now.paths.now }
    ensures comparable { result ≡ true → comparable (slice_index_or (paths_of among.now.paths.now) at []) (slice_index_or (paths_of one.now.paths.now) 0 []) ≡ true }
    ensures apart { result ≡ false → (at ≡ length among.now.paths.now) ⊎ (comparable (slice_index_or (paths_of among.now.paths.now) at []) (slice_index_or (paths_of one.now.paths.now) 0 []) ≡ false) }
    ensures counted { steps.old ≤ steps.new }
    ensures cost { steps.new ≤ steps.old + 1 }
{
    if at == among.len() {
        return false;
    }
    among.is_comparable(at, one, 0, steps)
}

// How many paths of a rising list come before the only path of another.
fn count_before<L: Ledger>(among: &CountedPaths, one: &CountedPaths, steps: &mut Steps<L>) -> usize
    requires one { length one.now.paths.now ≡ 1 }
    requires rising { IsRising (paths_of among.now.paths.now) }
    ensures within { result ≤ length among.now.paths.now }
    ensures before { (i : ℕ) → i < result → path_lt (slice_index_or (paths_of among.now.paths.now) i []) (slice_index_or (paths_of one.now.paths.now) 0 []) ≡ true }
    ensures not_before { (i : ℕ) → result ≤ i → i < length among.now.paths.now → path_lt (slice_index_or (paths_of among.now.paths.now) i []) (slice_index_or (paths_of one.now.paths.now) 0 []) ≡ false }
    ensures counted { steps.old ≤ steps.new }
    ensures cost { 2 ^ (steps.new - steps.old) ≤ 2 * length among.now.paths.now + 1 }
{
    let mut low = 0;
    let mut high = among.len();
    'halving: while low < high {
        let middle = low + (high - low) / 2;
        if among.is_before(middle, one, 0, steps) {
            low = middle + 1;
        } else {
            high = middle;
        }
    }
    low
}
