//! The first rule that matches a caller and a path.
ghost use Rattle.std.specs.Prelude.{◌≡◌, List, ℕ, None};
ghost use Rattle.changeset_model.specs.Path.{elements};
ghost use Rattle.policy_model.specs.Rules.{Rule, decide};
ghost use Rattle.land_policy.specs.Index.{IsFirsts, IsOwn, IsPlace, lesser, found_at};

use crate::firsts::{Firsts, first_at};

/// The first rule that matches a path, by the rules of everyone and those of the caller, if there are any. It looks for
/// rules that have the path or one above it.
pub(crate) fn first_match(everyone: &Firsts, own: Option<&Firsts>, place: &str) -> Option<usize>
    requires { IsPlace place.now }
    ensures { (rules : List Rule) (name : List ℕ) → IsFirsts rules None everyone.now → IsOwn rules name own.entry → result ≡ decide rules name (elements place.now) }
{
    let mut first = first_here(everyone, own, "");
    for (end, byte) in place.as_bytes().iter().enumerate() {
        if *byte == b'/' {
            first = lesser(first, first_here(everyone, own, &place[..end]));
        }
    }
    lesser(first, first_here(everyone, own, place))
}

// The first rule that has just this path.
fn first_here(everyone: &Firsts, own: Option<&Firsts>, place: &str) -> Option<usize>
    ensures { result ≡ found_at everyone.now own.entry place.now }
{
    let first = first_at(everyone, place);
    match own {
        Some(own) => lesser(first, first_at(own, place)),
        None => first,
    }
}

// The lesser number, or the one that is there.
fn lesser(left: Option<usize>, right: Option<usize>) -> Option<usize>
    ensures { result ≡ lesser left right }
{
    match (left, right) {
        (Some(left), Some(right)) => Some(left.min(right)),
        (Some(number), None) | (None, Some(number)) => Some(number),
        (None, None) => None,
    }
}
