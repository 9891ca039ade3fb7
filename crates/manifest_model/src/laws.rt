//! Laws of manifests, each the contract of a function that does nothing.
ghost use Rattle.std.specs.Prelude.{◌≡◌, ◌↔◌, ℕ, true, cond, None, Some, Ok, Err, List, [], ◌∷◌, ◌++◌, reverse, find, option_map, is_some};
ghost use Rattle.std.specs.FinMap.{find as find_key};
ghost use Rattle.byte_fields.specs.Bytes.{IsBytes};
ghost use Rattle.byte_fields.specs.Places.{NamesPlace};
ghost use Rattle.changeset_model.specs.Path.{Path, path_cmp, text_of};
ghost use Rattle.changeset_model.specs.Changeset.{File, set_at};
ghost use Rattle.byte_fields.specs.Bytes.{Id};
ghost use Rattle.history_model.specs.Chain.{line, changesets};
ghost use Rattle.history_model.specs.Past.{Past, Begin, At, past_on, HaveOneParent};
ghost use Rattle.manifest_model.specs.Merged.{unode_at};
ghost use Rattle.manifest_model.specs.Manifests.{Manifests, manifests_on, manifests_in, manifests_of, derive};
ghost use Rattle.history_model.specs.Tree.{tree, tree_of, files_in};
ghost use Rattle.manifest_model.specs.Deleted.{deleted_at, deletions, gone_on};
ghost use Rattle.history_model.specs.History.{Known};
ghost use Rattle.sha2.specs.Sha256.{sha256};
ghost use Rattle.manifest_model.specs.Unode.{Unode, FileUnode, linknode_of, is_unode, unode, unode_bytes, unode_id};
ghost use Rattle.manifest_model.specs.Fsnode.{Fsnode, is_fsnode, fsnode_bytes};
ghost use Rattle.manifest_model.specs.NodeReading.{fsnode_fields, fsnode_of, unode_fields, unode_of, deleted_fields, deleted_of};

/// The spelling of an fsnode is read as it, and no two fsnodes have one spelling.
pub fn fsnode_spelling_is_of_one()
    ensures read { (n : Fsnode) → is_fsnode n ≡ true → fsnode_of (fsnode_bytes n) ≡ Ok n }
    ensures one { (m n : Fsnode) → is_fsnode m ≡ true → is_fsnode n ≡ true → fsnode_bytes m ≡ fsnode_bytes n → m ≡ n }
{}

/// Bytes are read as an fsnode exactly where they spell it.
pub fn fsnode_is_read_exactly()
    ensures { (bytes : List ℕ) (n : Fsnode) → IsBytes bytes → ((fsnode_of bytes ≡ Ok n) ↔ ((is_fsnode n ≡ true) × (bytes ≡ fsnode_bytes n))) }
{}

/// Bytes are read as a unode exactly where they spell it.
pub fn unode_is_read_exactly()
    ensures { (bytes : List ℕ) (n : Unode) → IsBytes bytes → ((unode_of bytes ≡ Ok n) ↔ ((is_unode n ≡ true) × (bytes ≡ unode_bytes n))) }
{}

/// The spelling of a unode is read as it, and no two unodes have one spelling.
pub fn unode_spelling_is_of_one()
    ensures read { (n : Unode) → is_unode n ≡ true → unode_of (unode_bytes n) ≡ Ok n }
    ensures one { (m n : Unode) → is_unode m ≡ true → is_unode n ≡ true → unode_bytes m ≡ unode_bytes n → m ≡ n }
{}

/// Of a changeset and its ancestors, each the child of the next: a file's unode was made by the first of them that sets it. Its parent is the unode at that one's parent, if the path was a file there.
pub fn unode_is_of_its_setter()
    ensures link { (ks : List Known) (p : Path) (f : File) → tree (changesets (reverse ks)) p ≡ Some f →
        option_map (λ k. k.id) (find (λ k. is_some (set_at k.changeset p)) ks) ≡ Some (linknode_of (unode ks p)) }
    ensures kept { (c : Known) (older : List Known) (p : Path) (f : File) → tree (changesets (reverse (c ∷ older))) p ≡ Some f → set_at c.changeset p ≡ None → unode (c ∷ older) p ≡ unode older p }
    ensures made { (c : Known) (older : List Known) (p : Path) (f g : File) → tree (changesets (reverse (c ∷ older))) p ≡ Some f → set_at c.changeset p ≡ Some g →
        unode (c ∷ older) p ≡ FileUnode (cond (is_some (tree (changesets (reverse older)) p)) (unode_id (unode older p) ∷ []) []) f.content f.kind (sha256 (text_of p)) c.id }
{}

/// Where no known changeset has two parents, the manifests of each are those of its line; the unodes of a line are what they are without merges.
pub fn manifests_without_merges()
    ensures unodes { (ks : List Known) (p : Path) → unode_at (past_on ks) p ≡ unode ks p }
    ensures manifests { (ks : List Known) (x : Id) → HaveOneParent ks → manifests_of ks x ≡ manifests_on x (line ks x) }
{}

/// The place of a fault in a node's bytes is that of the first field that is cut off or breaks its rule, behind whole fields that keep their rules, or that of bytes that follow all fields. A summary is one field, and so is a link that a flag tells of.
pub fn a_node_fault_is_at_its_field()
    ensures fsnode { (bytes : List ℕ) (at : ℕ) → fsnode_of bytes ≡ Err at → NamesPlace 0 fsnode_fields bytes at }
    ensures unode { (bytes : List ℕ) (at : ℕ) → unode_of bytes ≡ Err at → NamesPlace 0 unode_fields bytes at }
    ensures deleted { (bytes : List ℕ) (at : ℕ) → deleted_of bytes ≡ Err at → NamesPlace 1 deleted_fields bytes at }
{}

/// The deletions of a past have at each path what was deleted there.
pub fn deletions_are_by_their_paths()
    ensures { (past : Past) (p : Path) → find_key path_cmp p (deletions past) ≡ deleted_at past p }
{}

/// With one changeset more nothing is deleted where it has a file; where only its first parent has one, it deleted that one;
/// and where neither has one it is as it was at the first parent. The second parent tells nothing of it.
pub fn deletion_with_one_more()
    ensures there { (c : Known) (first second : Past) (p : Path) (f : File) → tree_of (At c first second) p ≡ Some f → deleted_at (At c first second) p ≡ None }
    ensures gone { (c : Known) (first second : Past) (p : Path) (f : File) → tree_of (At c first second) p ≡ None → tree_of first p ≡ Some f → deleted_at (At c first second) p ≡ Some c.id }
    ensures before { (c : Known) (first second : Past) (p : Path) → tree_of (At c first second) p ≡ None → tree_of first p ≡ None → deleted_at (At c first second) p ≡ deleted_at first p }
    ensures all { (c : Known) (first second : Past) → gone_on c.id (files_in (At c first second)) (files_in first) (deletions first) ≡ deletions (At c first second) }
{}

/// What is derived from the manifests of the parents is what the definitions give from scratch. A changeset without a first parent has no second one.
pub fn a_job_derives_its_manifests()
    ensures root { (c : Known) → derive (record { changeset = c; files = files_in (At c Begin Begin); parents = [] }) ≡ manifests_in c.id (At c Begin Begin) }
    ensures line { (c k : Known) (first second : Past) → derive (record { changeset = c; files = files_in (At c (At k first second) Begin); parents = manifests_in k.id (At k first second) ∷ [] }) ≡ manifests_in c.id (At c (At k first second) Begin) }
    ensures merge { (c k j : Known) (first second third fourth : Past) → derive (record { changeset = c; files = files_in (At c (At k first second) (At j third fourth)); parents = manifests_in k.id (At k first second) ∷ manifests_in j.id (At j third fourth) ∷ [] }) ≡
        manifests_in c.id (At c (At k first second) (At j third fourth)) }
{}
