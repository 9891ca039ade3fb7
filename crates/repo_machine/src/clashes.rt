//! The paths that a stack touches, against those of the changesets that a head has since. No list of the latter is made.
ghost use Rattle.std.specs.Prelude.{◌≡◌, ℕ, ◌+◌, ◌*◌, ◌^◌, ◌<◌, ◌≤◌, ◌++◌, [], List, length, map, IfOk};
ghost use Rattle.changeset_model.specs.Path.{Path, IsRising};
ghost use Rattle.changeset_model.specs.Changeset.{touched_paths};
ghost use Rattle.changeset_store.specs.Fork.{IsAncestor, IsFork, following_at, fork_between};
ghost use Rattle.path_conflict.specs.Places.{paths_of, AreApart};
ghost use Rattle.path_conflict.specs.Best.{IsBest};
ghost use Rattle.repo_calls.specs.Refusing.{Gives};
ghost use Rattle.repo_machine.specs.Landings.{paths_checked};
ghost use Rattle.repo_machine.specs.Clashes.{edited_paths, apart_checked};
ghost use Rattle.repo_machine.specs.Looked.{HasLooked};
ghost use Rattle.repo_machine.specs.Touches.{Covers};

use crate::touches::{earlier_from, may_clash_since};
use ancestry::Steps;
use bonsai::Edit;
use changeset_store::{ChangesetStore, Fork};
use path_conflict::{Met, lesser_clash, outermost};
use rebase_stack::touched;
use repo_calls::Refusal;
use repo_path::RepoPath;
use std::alloc::{AllocError, Global};
use std::sync::ledger::Ledger;
use touch_index::TouchIndex;

/// The paths that the stack touches.
pub(crate) fn touched_paths_of(
    store: &ChangesetStore,
    alloc: Global,
    fork: &Fork,
) -> Result<Vec<RepoPath>, AllocError>
    requires { IsFork store.now.known fork.now }
    ensures { IfOk result (λ paths. paths.items ≡ touched_paths (fork_between store.now.known fork.now).stack) }
{
    let stack = store.stack(alloc, fork)?;
    let of_stack = touched(alloc, stack.as_slice())?;
    copies(alloc, of_stack.as_slice())
}

/// Refuses these paths that the stack touches, if one of them clashes with one that the range touches. A step is a comparison
/// of two paths. There are at most three more than the binary digits of the number of these paths for each edit of the range.
pub(crate) fn check_touched<L: Ledger>(
    store: &ChangesetStore,
    touches: &TouchIndex,
    alloc: Global,
    touched: &[RepoPath],
    fork: &Fork,
    steps: &mut Steps<L>,
) -> Result<(), Refusal>
    requires covers { Covers touches.now store.now.known }
    requires fork { IsFork store.now.known fork.now }
    requires touched { touched.now ≡ touched_paths (fork_between store.now.known fork.now).stack }
    ensures apart { Gives (λ done. done) (paths_checked (fork_between store.now.known fork.now)) result }
    ensures counted { steps.old ≤ steps.new }
    ensures cost { let f = fork_between store.now.known fork.now in (digits : ℕ) → length (touched_paths f.stack) < 2 ^ digits →
        steps.new ≤ steps.old + (digits + 3) * length (edited_paths f.range) }
{
    let paths = borrowed(alloc, touched)?;
    check_apart(
        store,
        touches,
        alloc,
        paths.as_slice(),
        fork.root,
        fork.head,
        steps,
    )
}

/// Refuses rising paths of which one clashes with a path that the changesets touch which follow an ancestor in a chain.
pub(crate) fn check_apart<L: Ledger>(
    store: &ChangesetStore,
    touches: &TouchIndex,
    alloc: Global,
    paths: &[&RepoPath],
    ancestor: u32,
    last: u32,
    steps: &mut Steps<L>,
) -> Result<(), Refusal>
    requires covers { Covers touches.now store.now.known }
    requires rising { IsRising (paths_of paths.now) }
    requires ancestor { IsAncestor store.now.known ancestor last }
    ensures apart { Gives (λ done. done) (apart_checked (paths_of paths.now) (following_at store.now.known ancestor last)) result }
    ensures counted { steps.old ≤ steps.new }
    ensures cost { (digits : ℕ) → length paths.now < 2 ^ digits →
        steps.new ≤ steps.old + (digits + 3) * length (edited_paths (following_at store.now.known ancestor last)) }
{
    let outer = outermost(alloc, paths)?;
    match least_since(
        store,
        touches,
        alloc,
        outer.as_slice(),
        ancestor,
        last,
        steps,
    ) {
        Some(met) => {
            let left = outer[met.place].copy(alloc)?;
            let right = met.path.copy(alloc)?;
            Err(Refusal::Clash { left, right })
        }
        None => Ok(()),
    }
}

// The least clash with the paths that the changesets touch which follow an ancestor. Those that aren't indexed are looked at, and
// then the others, if the index doesn't rule them all out.
fn least_since<'a, L: Ledger>(
    store: &'a ChangesetStore,
    touches: &TouchIndex,
    alloc: Global,
    outer: &[&RepoPath],
    ancestor: u32,
    last: u32,
    steps: &mut Steps<L>,
) -> Option<Met<'a>>
    requires covers { Covers touches.now store.now.known }
    requires ancestor { IsAncestor store.now.known ancestor last }
    requires rising { IsRising (paths_of outer.now) }
    requires apart { AreApart (paths_of outer.now) }
    ensures best { IsBest (paths_of outer.now) (edited_paths (following_at store.now.known ancestor last)) result }
    ensures counted { steps.old ≤ steps.new }
    ensures cost { (digits : ℕ) → length outer.now < 2 ^ digits →
        steps.new ≤ steps.old + (digits + 3) * length (edited_paths (following_at store.now.known ancestor last)) }
{
    let none = Seen {
        least: None,
        number: last,
    };
    let late = seen_down_to(store, outer, ancestor, none, touches.indexed(), steps);
    if late.least.is_none()
        && !may_clash_since(store, touches, alloc, outer, ancestor, late.number)
    {
        return None;
    }
    seen_down_to(store, outer, ancestor, late, 0, steps).least
}

// What was looked at in a chain: the least clash with it, and the number of the changeset that comes next.
#[derive(Clone, Copy)]
struct Seen<'a> {
    least: Option<Met<'a>>,
    number: u32,
}

// Looks further, newest first, at what follows an ancestor, but at no changeset below a number.
fn seen_down_to<'a, L: Ledger>(
    store: &'a ChangesetStore,
    outer: &[&RepoPath],
    ancestor: u32,
    seen: Seen<'a>,
    from: u32,
    steps: &mut Steps<L>,
) -> Seen<'a>
    requires ancestor { IsAncestor store.now.known ancestor seen.number }
    requires rising { IsRising (paths_of outer.now) }
    requires apart { AreApart (paths_of outer.now) }
    ensures looked { (last before : ℕ) → HasLooked store.now.known (paths_of outer.now) (length outer.now) ancestor last seen.entry.number seen.entry.least before steps.old →
        HasLooked store.now.known (paths_of outer.now) (length outer.now) ancestor last result.number result.least before steps.new }
    ensures ancestor { IsAncestor store.now.known ancestor result.number }
    ensures down { from ≤ result.number → following_at store.now.known ancestor result.number ≡ [] }
{
    let Seen {
        mut least,
        mut number,
    } = seen;
    'range: while let Some(earlier) = earlier_from(store, ancestor, number, from) {
        let edits = store.at(number).changeset().edits();
        least = least_with(outer, least, edits, steps);
        number = earlier;
    }
    Seen { least, number }
}

// The least clash with what was looked at so far and the paths of some edits.
fn least_with<'a, L: Ledger>(
    outer: &[&RepoPath],
    least: Option<Met<'a>>,
    edits: &'a [Edit],
    steps: &mut Steps<L>,
) -> Option<Met<'a>>
    requires rising { IsRising (paths_of outer.now) }
    requires apart { AreApart (paths_of outer.now) }
    ensures best { (seen : List Path) → IsBest (paths_of outer.now) seen least.entry → IsBest (paths_of outer.now) (seen ++ map (λ e. e.path) edits.now) result }
    ensures counted { steps.old ≤ steps.new }
    ensures cost { (digits : ℕ) → length outer.now < 2 ^ digits → steps.new ≤ steps.old + (digits + 3) * length edits.now }
{
    let mut least = least;
    'edits: for edit in edits {
        least = lesser_clash(outer, least, &edit.path, steps);
    }
    least
}

fn copies(alloc: Global, paths: &[&RepoPath]) -> Result<Vec<RepoPath>, AllocError>
    ensures { IfOk result (λ copies. copies.items ≡ map (λ p. p.now) paths.now) }
{
    let mut copies = Vec::with_capacity(alloc, paths.len())?;
    'paths: for path in paths {
        copies.push(path.copy(alloc)?)?;
    }
    Ok(copies)
}

/// The same paths, borrowed.
pub(crate) fn borrowed<'a>(
    alloc: Global,
    paths: &'a [RepoPath],
) -> Result<Vec<&'a RepoPath>, AllocError>
    ensures { IfOk result (λ found. map (λ p. p.now) found.items ≡ paths.now) }
{
    let mut found = Vec::with_capacity(alloc, paths.len())?;
    'paths: for path in paths {
        found.push(path)?;
    }
    Ok(found)
}
