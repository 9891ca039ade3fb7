//! Laws of entries, each the contract of a function that does nothing.
ghost use Rattle.std.specs.Prelude.{◌≡◌, true, false, Bool, None, Option, List, [], ◌∷◌, ◌++◌, ℕ, if◌then◌else◌};
ghost use Rattle.std.specs.List.{list_any};
ghost use Rattle.std.specs.Ordering.{nat_cmp, eq_by_cmp};
ghost use Rattle.std.specs.Cmp.Lexicographic.{slice_cmp};
ghost use Rattle.std.specs.FinMap.{is_sorted, find as find_key};
ghost use Rattle.changeset_model.specs.Path.{Path, path_cmp, is_strict_prefix};
ghost use Rattle.changeset_model.specs.Changeset.{File, FileChange, Changeset};
ghost use Rattle.history_model.specs.History.{Known};
ghost use Rattle.history_model.specs.Chain.{changesets};
ghost use Rattle.history_model.specs.Tree.{files, is_dir};
ghost use Rattle.manifest_model.specs.Fsnode.{FsEntry, fsnode};
ghost use Rattle.manifest_model.specs.Unode.{UnodeEntry, unode};
ghost use Rattle.manifest_laws.specs.Changes.{AreClear, is_covered, tree_at, files_in};
ghost use Rattle.manifest_laws.specs.Entries.{fs_entry_at, unode_entry_at};
ghost use Rattle.manifest_laws.specs.EntryEdits.{after_edits, entry_by, fs_made, fs_entry_after, unode_made, unode_entry_after, unode_entry_on};

/// Edits in order leave of an entry what the edit of its path leaves, and then the directory there where one lies under it.
pub fn entry_after_edits()
    ensures fsnode { (set_entry : Option FsEntry → File → FsEntry) (made : Option FsEntry) (is_file : FsEntry → Bool) (p : Path) (es : List (Path × FileChange)) (o : Option FsEntry) → is_sorted path_cmp es ≡ true →
        after_edits set_entry made is_file p es o ≡ entry_by set_entry made is_file (find_key path_cmp p es) (list_any (λ e. is_strict_prefix p e.0) es) o }
    ensures unode { (set_entry : Option UnodeEntry → File → UnodeEntry) (made : Option UnodeEntry) (is_file : UnodeEntry → Bool) (p : Path) (es : List (Path × FileChange)) (o : Option UnodeEntry) → is_sorted path_cmp es ≡ true →
        after_edits set_entry made is_file p es o ≡ entry_by set_entry made is_file (find_key path_cmp p es) (list_any (λ e. is_strict_prefix p e.0) es) o }
{}

/// The entry of a name in the fsnode of a directory after a changeset is what its edits leave of the entry before. Where a file is set at the directory or above it, nothing was there. The directory of the name is asked for only where an edit lies under it.
pub fn fsnode_entry_after_edits()
    ensures { (cs : List Changeset) (c : Changeset) (d : Path) (name : List ℕ) (made : Option FsEntry) → AreClear (cs ++ c ∷ []) → is_sorted path_cmp c.changes ≡ true →
        (list_any (λ e. is_strict_prefix (d ++ name ∷ []) e.0) c.changes ≡ true → made ≡ fs_made (files (cs ++ c ∷ [])) (d ++ name ∷ [])) →
        fs_entry_after made (d ++ name ∷ []) c.changes (if is_covered c d then None else fs_entry_at (fsnode (files cs) d) name) ≡ fs_entry_at (fsnode (files (cs ++ c ∷ [])) d) name }
{}

/// How a path is seen from a directory: no name is at it or above it where it isn't under the directory, and else the next element alone.
pub fn edits_are_seen_from_a_directory()
    ensures outside { (d q : Path) (name : List ℕ) → is_strict_prefix d q ≡ false → (eq_by_cmp path_cmp (d ++ name ∷ []) q ≡ false) × (is_strict_prefix (d ++ name ∷ []) q ≡ false) }
    ensures here { (d q : Path) (next name : List ℕ) → q ≡ d ++ next ∷ [] → (eq_by_cmp path_cmp (d ++ name ∷ []) q ≡ eq_by_cmp (slice_cmp nat_cmp) name next) × (is_strict_prefix (d ++ name ∷ []) q ≡ false) }
    ensures under { (d q r : Path) (e next name : List ℕ) → q ≡ d ++ next ∷ e ∷ r → (eq_by_cmp path_cmp (d ++ name ∷ []) q ≡ false) × (is_strict_prefix (d ++ name ∷ []) q ≡ eq_by_cmp (slice_cmp nat_cmp) name next) }
{}

/// The entry of a name in the unode of a directory that is there after a changeset is what its edits leave of the entry before. Where the directory wasn't there, nothing was. The directory of the name is asked for only where an edit lies under it.
pub fn unode_entry_after_edits()
    ensures { (c : Known) (older : List Known) (d : Path) (name : List ℕ) (made : Option UnodeEntry) → AreClear (changesets (c ∷ older)) → is_sorted path_cmp c.changeset.changes ≡ true → is_covered c.changeset d ≡ false →
        is_dir (files_in (c ∷ older)) d ≡ true → tree_at (c ∷ older) d ≡ None → (is_dir (files_in older) d ≡ true → tree_at older d ≡ None) →
        (list_any (λ e. is_strict_prefix (d ++ name ∷ []) e.0) c.changeset.changes ≡ true → made ≡ unode_made (c ∷ older) (d ++ name ∷ [])) →
        unode_entry_after c.id made (d ++ name ∷ []) c.changeset.changes (unode_entry_on older d name) ≡ unode_entry_at (unode (c ∷ older) d) name }
{}
