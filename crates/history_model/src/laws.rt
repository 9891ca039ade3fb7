//! Laws of histories, each the contract of a function that does nothing.
ghost use Rattle.std.specs.Prelude.{◌≡◌, ℕ, ◌+◌, true, false, cond, None, Some, Err, List, [], ◌∷◌, ◌++◌, Contains, is_some};
ghost use Rattle.std.specs.List.{list_any};
ghost use Rattle.byte_fields.specs.Bytes.{Id};
ghost use Rattle.changeset_model.specs.Path.{Path, comparable, IsRising};
ghost use Rattle.changeset_model.specs.Changeset.{File, Changeset, set_at, touched_paths};
ghost use Rattle.history_model.specs.Chain.{line, chain, changesets};
ghost use Rattle.history_model.specs.Past.{Past, past, past_on, push, HaveOneParent};
ghost use Rattle.history_model.specs.Tree.{decides, tree, tree_of, files, files_of};
ghost use Rattle.history_model.specs.Merge.{unresolved};
ghost use Rattle.history_model.specs.Payload.{payload_body, IsPayloadFault};
ghost use Rattle.history_model.specs.Pushrebase.{clash, IsLeastClash, rewrite};
ghost use Rattle.history_model.specs.History.{Entry, Known, is_stored, holds_policy, policy_of};
ghost use Rattle.history_model.specs.Journal.{record_len, size};

/// The clash that is found is the least, and where none is found there is none.
pub fn clash_is_the_least()
    ensures found { (left right : List Path) (pair : Path × Path) → IsRising left → IsRising right → clash left right ≡ Some pair → IsLeastClash left right pair }
    ensures none { (left right : List Path) → clash left right ≡ None → (l r : Path) → Contains left l → Contains right r → comparable l r ≡ false }
{}

/// A changeset more changes the tree where it decides, and nowhere else.
pub fn tree_of_one_more()
    ensures { (cs : List Changeset) (c : Changeset) (p : Path) → tree (cs ++ c ∷ []) p ≡ cond (decides c p) (set_at c p) (tree cs p) }
{}

/// A landing applies its stack: the new tree has what the stack sets where a member of it decides, and else what the head has.
pub fn landing_applies_its_stack()
    ensures { (of_head stack : List Changeset) (head : Id) (moment : ℕ) (p : Path) → tree (of_head ++ rewrite stack head moment) p ≡ cond (list_any (λ c. decides c p) stack) (tree stack p) (tree of_head p) }
{}

/// At each path that the stack touches the new tree has what the draft has, and at each path that is comparable to none of them what the old head has.
pub fn landing_agrees()
    ensures touched { (root of_head stack : List Changeset) (head : Id) (moment : ℕ) (p : Path) → Contains (touched_paths stack) p → tree (of_head ++ rewrite stack head moment) p ≡ tree (root ++ stack) p }
    ensures untouched { (of_head stack : List Changeset) (head : Id) (moment : ℕ) (p : Path) → ((q : Path) → Contains (touched_paths stack) q → comparable p q ≡ false) → tree (of_head ++ rewrite stack head moment) p ≡ tree of_head p }
{}

/// Two stacks of which no touched paths are comparable give one tree in either order.
pub fn stacks_in_either_order()
    ensures { (cs first second : List Changeset) → ((l r : Path) → Contains (touched_paths first) l → Contains (touched_paths second) r → comparable l r ≡ false) →
        (p : Path) → tree (cs ++ first ++ second) p ≡ tree (cs ++ second ++ first) p }
{}

/// Where the stack and the range don't clash, the head has at each path that the stack touches what the root has.
pub fn landing_finds_its_paths_unchanged()
    ensures { (root range stack : List Changeset) → clash (touched_paths stack) (touched_paths range) ≡ None → (p : Path) → Contains (touched_paths stack) p → tree (root ++ range) p ≡ tree root p }
{}

/// A rewritten stack touches the paths that the stack touches.
pub fn rewriting_keeps_paths()
    ensures { (stack : List Changeset) (head : Id) (moment : ℕ) → touched_paths (rewrite stack head moment) ≡ touched_paths stack }
{}

/// An entry that is stored takes five bytes and its payload, and a fault takes none.
pub fn size_of_one_more()
    ensures { (h : List Entry) (e : Entry) → size (h ++ e ∷ []) ≡ size h + cond (is_stored e.body) (record_len e.body) 0 }
{}

/// Where no known changeset has two parents, the past of each is its line, and its tree has the files of its chain.
pub fn pasts_without_merges()
    ensures lines { (ks : List Known) (x : Id) → HaveOneParent ks → past ks x ≡ past_on (line ks x) }
    ensures files { (ks : List Known) (x : Id) → HaveOneParent ks → files_of ks x ≡ files (changesets (chain ks x)) }
{}

/// Changesets on a past, each the only parent of the next, change its tree where one of them decides, and nowhere else.
pub fn tree_of_more_on_a_past()
    ensures { (base : Past) (ks : List Known) (p : Path) → tree_of (push base ks) p ≡ cond (list_any (λ c. decides c p) (changesets ks)) (tree (changesets ks) p) (tree_of base p) }
{}

/// Where a merge leaves no path unresolved, its parents have one file at each path that it leaves, and no file of the one lies under a file of the other where it leaves both.
pub fn merges_agree()
    ensures value { (c : Changeset) (left right : List (Path × File)) (p : Path) (f g : File) → unresolved c left right ≡ None → Contains left (p, f) → Contains right (p, g) → decides c p ≡ false → f ≡ g }
    ensures clear { (c : Changeset) (left right : List (Path × File)) (p q : Path) (f g : File) → unresolved c left right ≡ None → Contains left (p, f) → Contains right (q, g) → decides c p ≡ false → decides c q ≡ false → comparable p q ≡ true → p ≡ q }
{}

/// The place of a payload's fault: the payload is too long, or a field is cut off or breaks its rule there and whole fields that keep their rules stand before it, or bytes follow there behind the last field. The rest of a changeset behind its mark is one field.
pub fn a_payload_fault_is_at_its_field()
    ensures { (bytes : List ℕ) (at : ℕ) → payload_body bytes ≡ Err at → IsPayloadFault bytes at }
{}

/// A policy is held exactly where there is a last one.
pub fn a_held_policy_has_a_text()
    ensures { (h : List Entry) → holds_policy h ≡ is_some (policy_of h) }
{}
