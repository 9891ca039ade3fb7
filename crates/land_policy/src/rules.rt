//! The rules of a policy.
ghost use Rattle.std.specs.Prelude.{◌≡◌, ◌≤◌, ℕ, Ok, Err, Some, None, true, false, option_map, IfOk, IfSome, IfNone, IsErrOf};
ghost use Rattle.std.specs.List.{All};
ghost use Rattle.std.specs.Option.{option_map_or};
ghost use Rattle.changeset_model.specs.Path.{elements, IsRising};
ghost use Rattle.policy_model.specs.Grammar.{parse};
ghost use Rattle.policy_model.specs.Rules.{decide, is_allowed, denied, IsLeastDenied, bookmark_place, policy_place};
ghost use Rattle.land_policy.specs.Denials.{denial_view};
ghost use Rattle.land_policy.specs.Index.{IsPlace};
ghost use Rattle.land_policy.specs.View.{rules_view};

use crate::bookmark_text::{LONGEST_TEXT, write_text};
use crate::denied::Denied;
use crate::firsts::{Firsts, firsts_of};
use crate::matching::first_match;
use crate::policy_fault::PolicyFault;
use crate::reading::rules_in;
use crate::rule::Rule;
use crate::ruling::Ruling;
use crate::tables::{Tables, tables_of};
use repo_path::{BookName, RepoPath};
use std::alloc::{AllocError, Global};
use std::marker::Model;
use std::str;

/// The rules of a policy, at most 1,000, in their order. Contracts see the definitions' list. A decision takes no memory: it
/// looks for the path and for each one above it among the rules of everyone and among those of the caller. These are two
/// look-ups for each element and two for the root, each of about as many comparisons as the number of rules has binary
/// digits.
#[derive(Drop)]
pub struct Rules {
    rules: Vec<Rule>,
    everyone: Firsts,
    named: Tables,
}

impl Model for Rules {
    ghost use Rattle.std.specs.Prelude.{List};
    ghost use Rattle.policy_model.specs.Rules as model;
    ghost use Rattle.policy_model.specs.Codes.{coded_rules};

    ghost Value = { List model.Rule };

    ghost coded = { coded_rules };

    ghost use Rattle.land_policy.specs.Index.{IsIndex};
    ghost use Rattle.land_policy.specs.View.{rules_view};

    ghost view = { λ r. rules_view r.rules.items };

    ghost invariant = { λ r. IsIndex (rules_view r.rules.items) r.everyone r.named };
}

impl Rules {
    /// Reads a policy: at most 65,536 bytes and 1 to 1,000 lines, each ended by a line feed, which are `allow` or `deny`, a
    /// space, the name of a caller or `*`, a space, and a path or `/`.
    pub fn parse(alloc: Global, text: &[u8]) -> Result<Rules, PolicyFault>
        ensures rules { IfOk result (λ rules. parse text.now ≡ Ok rules) }
        ensures bad { (line : ℕ) → IsErrOf result (PolicyFault.BadPolicy line) → parse text.now ≡ Err line }
    {
        let rules = rules_in(alloc, text)?;
        Ok(Rules::of(alloc, rules)?)
    }

    // The rules, made ready to be looked up.
    fn of(alloc: Global, rules: Vec<Rule>) -> Result<Rules, AllocError>
        ensures { IfOk result (λ all. all ≡ rules_view rules.items) }
    {
        let everyone = firsts_of(alloc, rules.as_slice(), None)?;
        let named = tables_of(alloc, rules.as_slice())?;
        Ok(Rules {
            rules,
            everyone,
            named,
        })
    }

    /// The first rule that names the caller or is for everyone, and whose path is `/`, this path or one above it, element by
    /// element. None where no rule matches, which allows nothing.
    pub fn decide(&self, caller: &BookName, path: &RepoPath) -> Option<Ruling>
        ensures number { option_map (λ r. r.number) result ≡ decide self.now caller.now path.now }
        ensures allowed { option_map_or (λ r. r.allows) result false ≡ is_allowed self.now caller.now path.now }
    {
        self.decide_at(caller, path.as_str())
    }

    /// The same of a move of a bookmark, which is decided on its name under `.bookmarks`.
    pub fn decide_bookmark(&self, caller: &BookName, bookmark: &BookName) -> Option<Ruling>
        ensures number { option_map (λ r. r.number) result ≡ decide self.now caller.now (bookmark_place bookmark.now) }
        ensures allowed { option_map_or (λ r. r.allows) result false ≡ is_allowed self.now caller.now (bookmark_place bookmark.now) }
    {
        let mut bytes = [0; LONGEST_TEXT];
        let len = write_text(bookmark, &mut bytes);
        let Ok(place) = str::from_utf8(&bytes[..len]) else {
            unreachable!()
        };
        self.decide_at(caller, place)
    }

    /// The same of a new policy, which is decided on `.policy`.
    pub fn decide_policy(&self, caller: &BookName) -> Option<Ruling>
        ensures number { option_map (λ r. r.number) result ≡ decide self.now caller.now policy_place }
        ensures allowed { option_map_or (λ r. r.allows) result false ≡ is_allowed self.now caller.now policy_place }
    {
        self.decide_at(caller, ".policy")
    }

    // The first rule that matches the elements of a text.
    fn decide_at(&self, caller: &BookName, place: &str) -> Option<Ruling>
        requires { IsPlace place.now }
        ensures number { option_map (λ r. r.number) result ≡ decide self.now caller.now (elements place.now) }
        ensures allowed { option_map_or (λ r. r.allows) result false ≡ is_allowed self.now caller.now (elements place.now) }
    {
        let own = self.named.get(caller);
        let Some(number) = first_match(&self.everyone, own, place) else {
            return None;
        };
        Some(Ruling {
            number,
            allows: self.rules[number].allows,
        })
    }

    /// The first of some paths that isn't allowed, with the first rule that matches there. Where the paths rise it is the
    /// least that isn't allowed. It takes no memory.
    pub fn denied<'a>(&self, caller: &BookName, paths: &'a [RepoPath]) -> Option<Denied<'a>>
        ensures denied { option_map denial_view result ≡ denied self.now caller.now paths.now }
        ensures least { IsRising paths.now → IfSome result (λ d. IsLeastDenied self.now caller.now paths.now d.path.now) }
        ensures allowed { IfNone result (All (λ p. is_allowed self.now caller.now p ≡ true) paths.now) }
    {
        for path in paths {
            let ruling = self.decide(caller, path);
            if !is_allow(ruling) {
                let rule = number_of(ruling);
                return Some(Denied { path, rule });
            }
        }
        None
    }
}

// Whether a rule matches and allows.
fn is_allow(ruling: Option<Ruling>) -> bool
    ensures { result ≡ option_map_or (λ r. r.allows) ruling false }
{
    match ruling {
        Some(ruling) => ruling.allows,
        None => false,
    }
}

// The number of a rule that matches.
fn number_of(ruling: Option<Ruling>) -> Option<usize>
    ensures { result ≡ option_map (λ r. r.number) ruling }
{
    match ruling {
        Some(ruling) => Some(ruling.number),
        None => None,
    }
}
