//! The rules of a text.
ghost use Rattle.std.specs.Prelude.{◌≡◌, ℕ, Ok, Err, position, IfOk, IsErrOf};
ghost use Rattle.std.specs.List.{slice_split};
ghost use Rattle.policy_model.specs.Grammar.{parse, rules_from, is_line_feed};
ghost use Rattle.land_policy.specs.View.{rules_view};

use crate::line::rule_of;
use crate::policy_fault::PolicyFault;
use crate::rule::Rule;
use std::alloc::Global;

/// The most bytes of a policy.
pub const LONGEST_POLICY: usize = 65_536;

/// The most rules of a policy.
pub const MOST_RULES: usize = 1_000;

/// The rules of a text.
pub(crate) fn rules_in(alloc: Global, text: &[u8]) -> Result<Vec<Rule>, PolicyFault>
    ensures rules { IfOk result (λ rules. parse text.now ≡ Ok (rules_view rules.items)) }
    ensures bad { (line : ℕ) → IsErrOf result (PolicyFault.BadPolicy line) → parse text.now ≡ Err line }
{
    if text.is_empty() || text.len() > LONGEST_POLICY {
        return Err(PolicyFault::BadPolicy { line: 0 });
    }
    rules_of_lines(alloc, text)
}

// The rules of lines, each of which is ended by a line feed.
fn rules_of_lines(alloc: Global, text: &[u8]) -> Result<Vec<Rule>, PolicyFault>
    ensures rules { IfOk result (λ rules. rules_from 0 (slice_split is_line_feed text.now) ≡ Ok (rules_view rules.items)) }
    ensures bad { (line : ℕ) → IsErrOf result (PolicyFault.BadPolicy line) → rules_from 0 (slice_split is_line_feed text.now) ≡ Err line }
{
    let mut rules = Vec::new(alloc);
    let mut rest = text;
    while let Some(len) = first_line_feed(rest) {
        if rules.len() == MOST_RULES {
            return Err(PolicyFault::BadPolicy { line: MOST_RULES });
        }
        let Some(rule) = rule_of(alloc, &rest[..len])? else {
            return Err(PolicyFault::BadPolicy { line: rules.len() });
        };
        rules.push(rule)?;
        rest = &rest[len + 1..];
    }
    if rest.is_empty() {
        Ok(rules)
    } else {
        Err(PolicyFault::BadPolicy { line: rules.len() })
    }
}

// The place of the first line feed.
fn first_line_feed(text: &[u8]) -> Option<usize>
    ensures { result ≡ position is_line_feed text.now }
{
    text.iter().position(|b| *b == b'\n')
}
