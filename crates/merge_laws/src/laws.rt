//! Laws of merges, each the contract of a function that does nothing.
ghost use Rattle.std.specs.Prelude.{◌≡◌, ◌||◌, if◌then◌else◌, true, false, None, Some, is_some, Option, ℕ, List, [], ◌∷◌, ◌++◌};
ghost use Rattle.std.specs.List.{list_any};
ghost use Rattle.std.specs.Ordering.{nat_cmp};
ghost use Rattle.std.specs.Cmp.Lexicographic.{slice_cmp};
ghost use Rattle.std.specs.FinMap.{is_sorted, find as find_key};
ghost use Rattle.sha2.specs.Sha256.{sha256};
ghost use Rattle.byte_fields.specs.Bytes.{Id};
ghost use Rattle.changeset_model.specs.Path.{Path, text_of, is_strict_prefix};
ghost use Rattle.changeset_model.specs.Changeset.{File, set_at};
ghost use Rattle.history_model.specs.History.{Known, Entry, known};
ghost use Rattle.history_model.specs.Past.{Past, At, HaveOneParent, past};
ghost use Rattle.history_model.specs.Tree.{files_in, files_of, is_file, is_dir, tree_of};
ghost use Rattle.manifest_model.specs.Fsnode.{FsEntry, fsnode, fsnode_id};
ghost use Rattle.manifest_model.specs.Merged.{unode_at};
ghost use Rattle.manifest_model.specs.Unode.{UnodeEntry, Manifest, FileUnode, is_renewed, unode_id};
ghost use Rattle.manifest_laws.specs.Bounds.{ChangesetsKeepRules, changesets_of};
ghost use Rattle.manifest_laws.specs.Changes.{AreClear, is_covered};
ghost use Rattle.manifest_laws.specs.Entries.{entries_of, file_of_entry, fs_entry_at, unode_entry_at};
ghost use Rattle.manifest_laws.specs.EntryEdits.{fs_made};
ghost use Rattle.manifest_laws.specs.Steps.{fsnode_by};
ghost use Rattle.manifest_laws.specs.Summaries.{IsFlat};
ghost use Rattle.merge_laws.specs.Resolved.{AreResolved, AreMergesResolved, AreApart, AreAllApart, has_dir};
ghost use Rattle.merge_laws.specs.Joined.{dirs_differ, file_parents_of, files_differ, fs_differ, fs_merged, parents_of, unode_differ, unode_entries_on, unode_entry_on, unode_made_on, unode_merged};

/// Where each changeset of a past leaves nothing unresolved between its parents, no file of the tree lies under another, and no directory is a file.
pub fn files_of_merges_lie_apart()
    ensures flat { (past : Past) → AreResolved past → IsFlat (files_in past) }
    ensures directories { (past : Past) (d : Path) → AreResolved past → is_dir (files_in past) d ≡ true → tree_of past d ≡ None }
{}

/// The entry of a name in the fsnode of a directory after a changeset with up to two parents is joined of what its edits leave of both parents' entries. Where a file is set at the directory or above it, nothing was there. The directory of the name is asked for only where an edit lies under it, or where both parents have different ones and one is left.
pub fn fsnode_entry_after_a_merge()
    ensures { (c : Known) (first second : Past) (d : Path) (name : List ℕ) (made : Option FsEntry) → AreResolved (At c first second) → AreApart first second →
        (list_any (λ e. is_strict_prefix (d ++ name ∷ []) e.0) c.changeset.changes ≡ true → made ≡ fs_made (files_in (At c first second)) (d ++ name ∷ [])) →
        (fs_differ (fs_entry_at (fsnode (files_in first) d) name) (fs_entry_at (fsnode (files_in second) d) name) ≡ true → is_dir (files_in (At c first second)) (d ++ name ∷ []) ≡ true → made ≡ fs_made (files_in (At c first second)) (d ++ name ∷ [])) →
        fs_merged made (d ++ name ∷ []) c.changeset.changes (if is_covered c.changeset d then None else fs_entry_at (fsnode (files_in first) d) name) (if is_covered c.changeset d then None else fs_entry_at (fsnode (files_in second) d) name)
        ≡ fs_entry_at (fsnode (files_in (At c first second)) d) name }
{}

/// Entries by rising names that are those of a directory's fsnode make this fsnode.
pub fn fsnode_of_a_merge_by_its_entries()
    ensures { (past : Past) (d : Path) (es : List (List ℕ × FsEntry)) → AreResolved past → is_dir (files_in past) d ≡ true → is_sorted (slice_cmp nat_cmp) es ≡ true →
        ((name : List ℕ) → find_key (slice_cmp nat_cmp) name es ≡ fs_entry_at (fsnode (files_in past) d) name) → fsnode_by es ≡ fsnode (files_in past) d }
{}

/// A directory under which a changeset changes nothing was at one parent at least. It has the fsnode of the parent where it was, and of either where both have one.
pub fn fsnode_of_a_merge_is_kept()
    ensures there { (c : Known) (first second : Past) (d : Path) → AreResolved (At c first second) → is_renewed c.changeset d ≡ false → is_dir (files_in (At c first second)) d ≡ true → (has_dir first d || has_dir second d) ≡ true }
    ensures first { (c : Known) (first second : Past) (d : Path) → AreResolved (At c first second) → is_renewed c.changeset d ≡ false → is_dir (files_in (At c first second)) d ≡ true →
        has_dir first d ≡ true → has_dir second d ≡ false → fsnode (files_in (At c first second)) d ≡ fsnode (files_in first) d }
    ensures second { (c : Known) (first second : Past) (d : Path) → AreResolved (At c first second) → is_renewed c.changeset d ≡ false → is_dir (files_in (At c first second)) d ≡ true →
        has_dir first d ≡ false → has_dir second d ≡ true → fsnode (files_in (At c first second)) d ≡ fsnode (files_in second) d }
    ensures both { (c : Known) (first second : Past) (d : Path) → AreResolved (At c first second) → AreApart first second → is_renewed c.changeset d ≡ false → is_dir (files_in (At c first second)) d ≡ true →
        has_dir first d ≡ true → has_dir second d ≡ true → fsnode_id (fsnode (files_in first) d) ≡ fsnode_id (fsnode (files_in second) d) → fsnode (files_in (At c first second)) d ≡ fsnode (files_in first) d }
{}

/// A directory's unode is new where a changeset with up to two parents changes something under it, or where both parents have different ones: on the parents' unodes, each once. Else it is the one that a parent has.
pub fn unode_of_a_directory_after_a_merge()
    ensures made { (c : Known) (first second : Past) (d : Path) → AreResolved (At c first second) → is_dir (files_in (At c first second)) d ≡ true → (is_renewed c.changeset d || dirs_differ first second d) ≡ true →
        unode_at (At c first second) d ≡ Manifest (parents_of first second d) c.id (unode_entries_on (At c first second) d) }
    ensures first { (c : Known) (first second : Past) (d : Path) → AreResolved (At c first second) → is_dir (files_in (At c first second)) d ≡ true → (is_renewed c.changeset d || dirs_differ first second d) ≡ false →
        has_dir first d ≡ true → unode_at (At c first second) d ≡ unode_at first d }
    ensures second { (c : Known) (first second : Past) (d : Path) → AreResolved (At c first second) → is_dir (files_in (At c first second)) d ≡ true → (is_renewed c.changeset d || dirs_differ first second d) ≡ false →
        has_dir first d ≡ false → has_dir second d ≡ true → unode_at (At c first second) d ≡ unode_at second d }
{}

/// A file's unode is new where a changeset with up to two parents sets it, or where both parents have different ones. Else it is the one that a parent has.
pub fn unode_of_a_file_after_a_merge()
    ensures made { (c : Known) (first second : Past) (p : Path) (f : File) → tree_of (At c first second) p ≡ Some f → (is_some (set_at c.changeset p) || files_differ first second p) ≡ true →
        unode_at (At c first second) p ≡ FileUnode (file_parents_of first second p) f.content f.kind (sha256 (text_of p)) c.id }
    ensures first { (c : Known) (first second : Past) (p : Path) (f : File) → tree_of (At c first second) p ≡ Some f → (is_some (set_at c.changeset p) || files_differ first second p) ≡ false →
        is_file (files_in first) p ≡ true → unode_at (At c first second) p ≡ unode_at first p }
    ensures second { (c : Known) (first second : Past) (p : Path) (f : File) → tree_of (At c first second) p ≡ Some f → (is_some (set_at c.changeset p) || files_differ first second p) ≡ false →
        is_file (files_in first) p ≡ false → is_file (files_in second) p ≡ true → unode_at (At c first second) p ≡ unode_at second p }
{}

/// The entries of a directory's unode are the ids of the unodes of its names there, also where the node was kept of a parent. They stand by rising names, and other such entries are these where each name has the same.
pub fn unode_of_a_past_by_its_entries()
    ensures entries { (past : Past) (d : Path) → AreResolved past → AreAllApart past → has_dir past d ≡ true → entries_of (unode_at past d) ≡ unode_entries_on past d }
    ensures rising { (past : Past) (d : Path) → AreResolved past → AreAllApart past → has_dir past d ≡ true → is_sorted (slice_cmp nat_cmp) (entries_of (unode_at past d)) ≡ true }
    ensures found { (past : Past) (d : Path) (es : List (List ℕ × UnodeEntry)) → AreResolved past → AreAllApart past → has_dir past d ≡ true → is_sorted (slice_cmp nat_cmp) es ≡ true →
        ((name : List ℕ) → find_key (slice_cmp nat_cmp) name es ≡ unode_entry_at (unode_at past d) name) → es ≡ entries_of (unode_at past d) }
{}

/// The entry of a name in the unode of a directory that is there after a changeset with up to two parents is joined of what its edits leave of both parents' entries. The directory of the name is asked for only where an edit lies under it, or where both parents have different ones and one is left.
pub fn unode_entry_after_a_merge()
    ensures { (c : Known) (first second : Past) (d : Path) (name : List ℕ) (made : Option UnodeEntry) → AreResolved (At c first second) → AreAllApart (At c first second) → is_dir (files_in (At c first second)) d ≡ true →
        (list_any (λ e. is_strict_prefix (d ++ name ∷ []) e.0) c.changeset.changes ≡ true → made ≡ unode_made_on (At c first second) (d ++ name ∷ [])) →
        (unode_differ (unode_entry_on first d name) (unode_entry_on second d name) ≡ true → is_dir (files_in (At c first second)) (d ++ name ∷ []) ≡ true → made ≡ unode_made_on (At c first second) (d ++ name ∷ [])) →
        unode_merged c.id (file_of_entry (fs_entry_at (fsnode (files_in (At c first second)) d) name)) made (d ++ name ∷ []) c.changeset.changes (unode_entry_on first d name) (unode_entry_on second d name)
        ≡ unode_entry_at (unode_at (At c first second) d) name }
{}

/// Where both parents have one unode of a directory under which nothing is changed, they have one fsnode of it too. So a directory is gone through where its unodes differ.
pub fn equal_unodes_have_equal_fsnodes()
    ensures { (c : Known) (first second : Past) (d : Path) → AreResolved (At c first second) → AreAllApart (At c first second) → is_renewed c.changeset d ≡ false → is_dir (files_in (At c first second)) d ≡ true →
        has_dir first d ≡ true → has_dir second d ≡ true → unode_id (unode_at first d) ≡ unode_id (unode_at second d) → fsnode (files_in first) d ≡ fsnode (files_in second) d }
{}

/// Where both parents have different unodes of a name, as a file or as a directory, they have different ones of the directory that it lies in.
pub fn differences_go_up()
    ensures files { (c : Known) (first second : Past) (d : Path) (name : List ℕ) → AreResolved (At c first second) → AreAllApart (At c first second) → files_differ first second (d ++ name ∷ []) ≡ true → dirs_differ first second d ≡ true }
    ensures directories { (c : Known) (first second : Past) (d : Path) (name : List ℕ) → AreResolved (At c first second) → AreAllApart (At c first second) → dirs_differ first second (d ++ name ∷ []) ≡ true → dirs_differ first second d ≡ true }
{}

/// Where the changesets of a history keep their rules, set no path under another and leave nothing unresolved, each of a known changeset's past is resolved on its parents, and no file of its tree lies under another.
pub fn known_changesets_are_resolved()
    ensures resolved { (h : List Entry) (x : Id) → ChangesetsKeepRules h → AreClear (changesets_of h) → AreMergesResolved (past (known h) x) → AreResolved (past (known h) x) }
    ensures flat { (h : List Entry) (x : Id) → ChangesetsKeepRules h → AreClear (changesets_of h) → AreMergesResolved (past (known h) x) → IsFlat (files_of (known h) x) }
{}

/// Where none has two parents, nothing is unresolved, and no two parents have nodes to tell apart.
pub fn pasts_without_merges_are_resolved()
    ensures resolved { (ks : List Known) (x : Id) → HaveOneParent ks → AreMergesResolved (past ks x) }
    ensures apart { (ks : List Known) (x : Id) → HaveOneParent ks → AreAllApart (past ks x) }
{}
