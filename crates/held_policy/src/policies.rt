//! New policies.
ghost use Rattle.std.specs.Prelude.{◌≡◌, [], ◌∷◌};
ghost use Rattle.std.specs.Option.{option_copied};
ghost use Rattle.policy_model.specs.Rules.{policy_place, denied};
ghost use Rattle.reply_model.specs.Reply.{refuse_some, denial};
ghost use Rattle.repo_calls.specs.Refusing.{Gives};
ghost use Rattle.held_policy.specs.Held.{denied_by};

use crate::ruled::{is_allow, number_of};
use land_policy::Rules;
use repo_calls::{DeniedPlace, Refusal};
use repo_path::BookName;

/// Refuses a new policy that isn't allowed to the caller. It takes no memory.
pub fn check_policy(rules: Option<&Rules>, caller: &BookName) -> Result<(), Refusal>
    ensures { Gives (λ done. done) (refuse_some (denied_by (option_copied rules.entry) caller.now (policy_place ∷ [])) denial) result }
{
    let Some(rules) = rules else {
        return Ok(());
    };
    check_change(rules, caller)
}

fn check_change(rules: &Rules, caller: &BookName) -> Result<(), Refusal>
    ensures { Gives (λ done. done) (refuse_some (denied rules.now caller.now (policy_place ∷ [])) denial) result }
{
    let ruling = rules.decide_policy(caller);
    if is_allow(ruling) {
        return Ok(());
    }
    Err(Refusal::Denied {
        place: DeniedPlace::Policy,
        rule: number_of(ruling),
    })
}
