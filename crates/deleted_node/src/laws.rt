//! Laws of deleted nodes, each the contract of a function that does nothing.
ghost use Rattle.std.specs.Prelude.{◌≡◌, ◌↔◌, ◌++◌, ◌∷◌, [], ℕ, true, false, None, is_some, Some, Ok, List, if◌then◌else◌};
ghost use Rattle.std.specs.Ordering.{nat_cmp};
ghost use Rattle.std.specs.Cmp.Lexicographic.{slice_cmp};
ghost use Rattle.std.specs.FinMap.{find as find_key};
ghost use Rattle.byte_fields.specs.Bytes.{IsBytes};
ghost use Rattle.changeset_model.specs.Path.{Path, is_prefix, path_cmp};
ghost use Rattle.history_model.specs.History.{Known};
ghost use Rattle.history_model.specs.Past.{Past, Begin, At};
ghost use Rattle.history_model.specs.Tree.{tree_of};
ghost use Rattle.manifest_model.specs.Deleted.{DeletedNode, deleted, deleted_at, deleted_bytes, deleted_id, has_deleted, is_deleted};
ghost use Rattle.manifest_laws.specs.Changes.{is_reached};
ghost use Rattle.manifest_model.specs.NodeReading.{deleted_of};

/// The spelling of a deleted node is read as it, and no two deleted nodes have one spelling.
pub fn deleted_spelling_is_of_one()
    ensures read { (n : DeletedNode) → is_deleted n ≡ true → deleted_of (deleted_bytes n) ≡ Ok n }
    ensures one { (m n : DeletedNode) → is_deleted m ≡ true → is_deleted n ≡ true → deleted_bytes m ≡ deleted_bytes n → m ≡ n }
{}

/// Bytes are read as a deleted node exactly where they spell it.
pub fn deleted_is_read_exactly()
    ensures { (bytes : List ℕ) (n : DeletedNode) → IsBytes bytes → ((deleted_of bytes ≡ Ok n) ↔ ((is_deleted n ≡ true) × (bytes ≡ deleted_bytes n))) }
{}

/// The deleted node of a path has the path's link, and under a name it has the node of the path that is longer by the name,
/// exactly where there is one. Where a path has no node nothing was deleted there.
pub fn deleted_node_of_a_path()
    ensures link { (past : Past) (d : Path) → (deleted past d).link ≡ deleted_at past d }
    ensures entry { (past : Past) (d : Path) (n : List ℕ) → find_key (slice_cmp nat_cmp) n (deleted past d).entries ≡ if has_deleted past (d ++ n ∷ []) then Some (deleted_id (deleted past (d ++ n ∷ []))) else None }
    ensures nothing { (past : Past) (d : Path) → has_deleted past d ≡ false → deleted_at past d ≡ None }
{}

/// A deleted node, and whether there is one, is of what was deleted at its path and under it. So with one changeset more it
/// is another node only where a file comes or goes there, and with one parent only where a change reaches the path; what it
/// has under any other name is what the parent's node has there.
pub fn deleted_nodes_stay()
    ensures agree { (past before : Past) (d : Path) → ((p : Path) → is_prefix d p ≡ true → deleted_at past p ≡ deleted_at before p) → (deleted past d ≡ deleted before d) × (has_deleted past d ≡ has_deleted before d) }
    ensures entry { (past before : Past) (d : Path) (n : List ℕ) → ((p : Path) → is_prefix (d ++ n ∷ []) p ≡ true → deleted_at past p ≡ deleted_at before p) →
        find_key (slice_cmp nat_cmp) n (deleted past d).entries ≡ find_key (slice_cmp nat_cmp) n (deleted before d).entries }
    ensures stay { (c : Known) (first second : Past) (d : Path) → ((p : Path) → is_prefix d p ≡ true → is_some (tree_of (At c first second) p) ≡ is_some (tree_of first p)) → (deleted (At c first second) d ≡ deleted first d) × (has_deleted (At c first second) d ≡ has_deleted first d) }
    ensures unreached { (c : Known) (first : Past) (d : Path) → is_reached c.changeset d ≡ false → (deleted (At c first Begin) d ≡ deleted first d) × (has_deleted (At c first Begin) d ≡ has_deleted first d) }
{}
