//! The place of a path that isn't allowed.
ghost use Rattle.std.specs.Prelude.{◌≡◌, ◌<◌, length, option_map, IfSome};
ghost use Rattle.std.specs.Option.{option_copied};
ghost use Rattle.policy_model.specs.Rules.{denied};
ghost use Rattle.held_policy.specs.Held.{denied_by};
ghost use Rattle.held_policy.specs.Places.{denial_at};

use crate::ruled::{is_allow, number_of};
use land_policy::Rules;
use repo_path::{BookName, RepoPath};

/// A path among some that isn't allowed: its place, and the number of the first rule that matches, if one does.
#[derive(Clone, Copy, Debug)]
pub struct DeniedAt {
    pub at: usize,
    pub rule: Option<u64>,
}

/// The first of some paths that isn't allowed to the caller. It takes no memory, and borrows no path.
pub fn denied_at(rules: Option<&Rules>, caller: &BookName, paths: &[RepoPath]) -> Option<DeniedAt>
    ensures denied { option_map (denial_at paths.now) result ≡ denied_by (option_copied rules.entry) caller.now paths.now }
    ensures in_range { IfSome result (λ d. d.at < length paths.now) }
{
    match rules {
        Some(rules) => denied_place(rules, caller, paths),
        None => None,
    }
}

fn denied_place(rules: &Rules, caller: &BookName, paths: &[RepoPath]) -> Option<DeniedAt>
    ensures denied { option_map (denial_at paths.now) result ≡ denied rules.now caller.now paths.now }
    ensures in_range { IfSome result (λ d. d.at < length paths.now) }
{
    for (at, path) in paths.iter().enumerate() {
        let ruling = rules.decide(caller, path);
        if !is_allow(ruling) {
            let rule = number_of(ruling);
            return Some(DeniedAt { at, rule });
        }
    }
    None
}
