//! Moves of bookmarks.
ghost use Rattle.std.specs.Prelude.{◌≡◌, [], ◌∷◌};
ghost use Rattle.std.specs.Option.{option_copied};
ghost use Rattle.policy_model.specs.Rules.{bookmark_place, denied};
ghost use Rattle.reply_model.specs.Reply.{refuse_some, denial};
ghost use Rattle.repo_calls.specs.Refusing.{Gives};
ghost use Rattle.held_policy.specs.Held.{denied_by};

use crate::ruled::{is_allow, number_of};
use land_policy::Rules;
use repo_calls::{DeniedPlace, Refusal};
use repo_path::BookName;
use std::alloc::Global;

/// Refuses the move of a bookmark that isn't allowed to the caller.
pub fn check_bookmark(
    rules: Option<&Rules>,
    alloc: Global,
    caller: &BookName,
    bookmark: &BookName,
) -> Result<(), Refusal>
    ensures { Gives (λ done. done) (refuse_some (denied_by (option_copied rules.entry) caller.now (bookmark_place bookmark.now ∷ [])) denial) result }
{
    let Some(rules) = rules else {
        return Ok(());
    };
    check_move(rules, alloc, caller, bookmark)
}

fn check_move(
    rules: &Rules,
    alloc: Global,
    caller: &BookName,
    bookmark: &BookName,
) -> Result<(), Refusal>
    ensures { Gives (λ done. done) (refuse_some (denied rules.now caller.now (bookmark_place bookmark.now ∷ [])) denial) result }
{
    let ruling = rules.decide_bookmark(caller, bookmark);
    if is_allow(ruling) {
        return Ok(());
    }
    Err(Refusal::Denied {
        place: DeniedPlace::Bookmark(bookmark.copy(alloc)?),
        rule: number_of(ruling),
    })
}
