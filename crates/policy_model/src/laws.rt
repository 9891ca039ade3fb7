//! Laws of policies, each the contract of a function that does nothing.
ghost use Rattle.std.specs.Prelude.{◌≡◌, ◌++◌, ◌∷◌, [], ℕ, None, Some, Ok, Err, List, codes, true, Contains};
ghost use Rattle.changeset_model.specs.Path.{Path, IsRising};
ghost use Rattle.policy_model.specs.Rules.{Rule, Denial, decide, is_allowed, denied, IsLeastDenied, bookmark_place};
ghost use Rattle.policy_model.specs.Grammar.{parse};
ghost use Rattle.policy_model.specs.Held.{rules_in, denied_under};
ghost use Rattle.policy_model.specs.Examples.{lib_policy, lib_rules, ann_policy, ann_rules};

/// Of rising paths the denied one is the least that isn't allowed, with the number of the rule that decides there.
pub fn denied_is_the_least()
    ensures least { (rules : List Rule) (name : List ℕ) (ps : List Path) (d : Denial) → IsRising ps → denied rules name ps ≡ Some d → IsLeastDenied rules name ps d.path }
    ensures rule { (rules : List Rule) (name : List ℕ) (ps : List Path) (d : Denial) → denied rules name ps ≡ Some d → d.rule ≡ decide rules name d.path }
{}

/// Texts that are read, and the lines at which others break the grammar.
pub fn small_texts()
    ensures three_rules { parse lib_policy ≡ Ok lib_rules }
    ensures one_rule { parse ann_policy ≡ Ok ann_rules }
    ensures no_path { parse (codes "allow ann\n") ≡ Err 0 }
    ensures not_ended { parse (codes "allow ann") ≡ Err 0 }
    ensures last_not_ended { parse (lib_policy ++ codes "allow ann lib") ≡ Err 3 }
    ensures empty { parse [] ≡ Err 0 }
    ensures other_verb { parse (ann_policy ++ codes "Allow ann lib\n") ≡ Err 1 }
    ensures empty_line { parse (ann_policy ++ codes "\n") ≡ Err 1 }
{}

/// What two small policies decide: in the directory `lib` one caller is allowed, and elsewhere everyone; or one caller alone.
pub fn small_policies()
    ensures other_denied { denied lib_rules (codes "bob") ((codes "lib" ∷ codes "x" ∷ []) ∷ []) ≡ Some (record { path = codes "lib" ∷ codes "x" ∷ []; rule = Some 1 }) }
    ensures caller_allowed { denied lib_rules (codes "ann") ((codes "lib" ∷ codes "x" ∷ []) ∷ []) ≡ None }
    ensures elements_not_bytes { denied lib_rules (codes "bob") ((codes "libx" ∷ []) ∷ []) ≡ None }
    ensures no_rule { denied ann_rules (codes "bob") (bookmark_place (codes "main") ∷ []) ≡ Some (record { path = codes ".bookmarks" ∷ codes "main" ∷ []; rule = None }) }
{}

/// Where a policy is held and nothing is denied, it allows the caller each of the paths.
pub fn what_is_not_denied_is_allowed()
    ensures { (text caller : List ℕ) (ps : List Path) (p : Path) → denied_under (Some text) caller ps ≡ None → Contains ps p → is_allowed (rules_in text) caller p ≡ true }
{}
