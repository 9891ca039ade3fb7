//! Landings.
ghost use Rattle.std.specs.Prelude.{◌≡◌, option_map, IfOk};
ghost use Rattle.std.specs.Option.{option_copied};
ghost use Rattle.land_policy.specs.Denials.{denial_view};
ghost use Rattle.reply_model.specs.Reply.{refuse_some, denial};
ghost use Rattle.reply_model.specs.After.{Refuses};
ghost use Rattle.repo_calls.specs.Calls.{refused};
ghost use Rattle.repo_calls.specs.Refusing.{Gives};
ghost use Rattle.held_policy.specs.Held.{denied_by};

use land_policy::{Denied, Rules};
use repo_calls::{DeniedPlace, Refusal};
use repo_path::{BookName, RepoPath};
use std::alloc::{AllocError, Global};

/// The first of some paths that isn't allowed to the caller, with the rule that decides. It takes no memory.
pub fn denied_among<'a>(
    rules: Option<&Rules>,
    caller: &BookName,
    paths: &'a [RepoPath],
) -> Option<Denied<'a>>
    ensures { option_map denial_view result ≡ denied_by (option_copied rules.entry) caller.now paths.now }
{
    match rules {
        Some(rules) => rules.denied(caller, paths),
        None => None,
    }
}

/// Refuses a landing that touches these rising paths, if one of them isn't allowed to the caller.
pub fn check_landing(
    rules: Option<&Rules>,
    alloc: Global,
    caller: &BookName,
    touched: &[RepoPath],
) -> Result<(), Refusal>
    ensures { Gives (λ done. done) (refuse_some (denied_by (option_copied rules.entry) caller.now touched.now) denial) result }
{
    match denied_among(rules, caller, touched) {
        Some(denied) => Err(refusal_of(alloc, denied)?),
        None => Ok(()),
    }
}

fn refusal_of(alloc: Global, denied: Denied) -> Result<Refusal, AllocError>
    ensures { IfOk result (λ refusal. refused refusal ≡ Refuses (denial (denial_view denied.entry))) }
{
    let path = denied.path.copy(alloc)?;
    let rule = match denied.rule {
        Some(number) => Some(number as u64),
        None => None,
    };
    let place = DeniedPlace::Path(path);
    Ok(Refusal::Denied { place, rule })
}
