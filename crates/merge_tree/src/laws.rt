//! Laws of merges, each the contract of a function that does nothing.
ghost use Rattle.std.specs.Prelude.{◌≡◌, true, false, None, Some, List};
ghost use Rattle.std.specs.FinMap.{is_sorted};
ghost use Rattle.changeset_model.specs.Path.{Path, path_cmp, path_lt, is_strict_prefix};
ghost use Rattle.changeset_model.specs.Changeset.{File, Changeset, self_conflict};
ghost use Rattle.history_model.specs.History.{Known};
ghost use Rattle.history_model.specs.Past.{Past, At};
ghost use Rattle.history_model.specs.Tree.{decides, tree_of, files_in, file_at};
ghost use Rattle.history_model.specs.Merge.{unresolved};
ghost use Rattle.manifest_laws.specs.Summaries.{IsFlat};
ghost use Rattle.merge_tree.specs.Unresolved.{IsUnresolved};

/// The files of a past stand by strictly rising paths, and at each path is what its tree has there.
pub fn files_are_the_tree()
    ensures order { (past : Past) → is_sorted path_cmp (files_in past) ≡ true }
    ensures tree { (past : Past) (p : Path) → file_at (files_in past) p ≡ tree_of past p }
{}

/// The path that is told is unresolved, and none that is less. Where none is told, none is.
pub fn unresolved_is_the_least()
    ensures found { (c : Changeset) (left right : List (Path × File)) (q : Path) → unresolved c left right ≡ Some q → IsUnresolved c left right q }
    ensures least { (c : Changeset) (left right : List (Path × File)) (p q : Path) → unresolved c left right ≡ Some q → IsUnresolved c left right p → path_lt p q ≡ false }
    ensures none { (c : Changeset) (left right : List (Path × File)) (p : Path) → unresolved c left right ≡ None → IsUnresolved c left right p → ⊥ }
{}

/// Where both sides have the same at a path, it isn't unresolved. So directories that are equal need no look.
pub fn equal_files_are_resolved()
    ensures { (c : Changeset) (left right : List (Path × File)) (q : Path) → is_sorted path_cmp left ≡ true → is_sorted path_cmp right ≡ true → IsFlat left → IsFlat right → file_at left q ≡ file_at right q → IsUnresolved c left right q → ⊥ }
{}

/// Where one side has a file and the other files under it, the file is unresolved as soon as the merge leaves it and one of
/// those, and else nothing there is. So of such a directory files are looked at until one is left.
pub fn a_file_against_a_directory()
    ensures here { (c : Changeset) (left right : List (Path × File)) (p q : Path) (f g : File) → file_at left p ≡ Some f → file_at right q ≡ Some g → is_strict_prefix p q ≡ true → decides c p ≡ false → decides c q ≡ false → IsUnresolved c left right p }
    ensures under { (c : Changeset) (left right : List (Path × File)) (p q : Path) (f : File) → is_sorted path_cmp left ≡ true → IsFlat left → file_at left p ≡ Some f → is_strict_prefix p q ≡ true → IsUnresolved c left right q → (decides c p ≡ false) × (decides c q ≡ false) }
{}

/// Where no file of a parent lies under another and nothing is unresolved, no file of the merge lies under another.
pub fn a_merge_stays_flat()
    ensures { (k : Known) (left right : Past) → self_conflict k.changeset ≡ None → is_sorted path_cmp k.changeset.changes ≡ true → IsFlat (files_in left) → IsFlat (files_in right) →
        unresolved k.changeset (files_in left) (files_in right) ≡ None → IsFlat (files_in (At k left right)) }
{}

/// Where nothing is unresolved, it doesn't matter which parent is the first.
pub fn parents_in_either_order()
    ensures { (k : Known) (left right : Past) → unresolved k.changeset (files_in left) (files_in right) ≡ None → files_in (At k left right) ≡ files_in (At k right left) }
{}
