//! The rules of one caller, or of everyone, by path.
ghost use Rattle.std.specs.Prelude.{◌≡◌, List, ℕ, bytes_eq, option_map, if◌then◌else◌, Some, None, IfOk, OnOk};
ghost use Rattle.std.specs.BTreeMap.{get_by_text};
ghost use Rattle.std.specs.Option.{option_or};
ghost use Rattle.land_policy.specs.Index.{IsFirsts};
ghost use Rattle.land_policy.specs.View.{rules_view};

use crate::rule::Rule;
use repo_path::BookName;
use std::alloc::{AllocError, Global};
use std::collections::BTreeMap;

/// The numbers of rules by the texts of their paths.
pub(crate) type Firsts = BTreeMap<String, usize>;

/// The rules that speak of just this caller, or of everyone where none is given. Of those with one path it has the first.
pub(crate) fn firsts_of(
    alloc: Global,
    rules: &[Rule],
    caller: Option<&BookName>,
) -> Result<Firsts, AllocError>
    ensures { IfOk result (IsFirsts (rules_view rules.now) (option_map (λ n. n.now) caller.entry)) }
{
    let mut firsts = BTreeMap::new(alloc);
    for (number, rule) in rules.iter().enumerate() {
        if rule.is_of(caller) {
            enter(alloc, &mut firsts, rule.place(), number)?;
        }
    }
    Ok(firsts)
}

// Enters the number of a rule, where no earlier one has its path.
fn enter(alloc: Global, firsts: &mut Firsts, place: &str, number: usize) -> Result<(), AllocError>
    ensures { OnOk result ((key : List ℕ) → get_by_text firsts.new key ≡ option_or (get_by_text firsts.old key) (if bytes_eq place.now key then Some number else None)) }
{
    if firsts.contains_key(place) {
        return Ok(());
    }
    let key = String::from_str(alloc, place)?;
    firsts.insert(key, number)?;
    Ok(())
}

/// The first rule that has just this path.
pub(crate) fn first_at(firsts: &Firsts, place: &str) -> Option<usize>
    ensures { result ≡ get_by_text firsts.now place.now }
{
    firsts.get(place).copied()
}
