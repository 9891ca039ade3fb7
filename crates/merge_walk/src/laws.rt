//! Laws of walks, each the contract of a function that does nothing.
ghost use Rattle.std.specs.Prelude.{◌≡◌, true, List, [], Some};
ghost use Rattle.std.specs.List.{AllByRecursion};
ghost use Rattle.std.specs.FinMap as map;
ghost use Rattle.std.specs.FinMap.{is_sorted};
ghost use Rattle.changeset_model.specs.Path.{Path, path_cmp, is_path};
ghost use Rattle.changeset_model.specs.Changeset.{File};
ghost use Rattle.history_model.specs.Tree.{is_dir};
ghost use Rattle.manifest_model.specs.Fsnode.{fsnode, fsnode_bytes, fsnode_id, is_fsnode};
ghost use Rattle.manifest_laws.specs.Summaries.{IsFlat};
ghost use Rattle.node_table.specs.Table.{Nodes};
ghost use Rattle.merge_walk.specs.Table.{entries_under};
ghost use Rattle.merge_walk.specs.Walk.{Listing, IsTreeAt};

/// Where each directory of a tree is listed as its fsnode says, the id of the root's fsnode has that tree.
pub fn fsnodes_are_trees()
    ensures { (listed : Listing) (files : List (Path × File)) → is_sorted path_cmp files ≡ true → AllByRecursion (λ f. is_path f.0 ≡ true) files → IsFlat files →
        ((d : Path) → is_dir files d ≡ true → listed (fsnode_id (fsnode files d)) ≡ (fsnode files d).entries) → IsTreeAt listed (fsnode_id (fsnode files [])) files }
{}

/// Where the fsnode of each directory of a tree stands in a table under its id, the id of the root's has that tree there.
pub fn tables_have_trees()
    ensures { (nodes : Nodes) (files : List (Path × File)) → is_sorted path_cmp files ≡ true → AllByRecursion (λ f. is_path f.0 ≡ true) files → IsFlat files →
        ((d : Path) → is_dir files d ≡ true → (is_fsnode (fsnode files d) ≡ true) × (map.get nodes (fsnode_id (fsnode files d)) ≡ Some (fsnode_bytes (fsnode files d)))) → IsTreeAt (entries_under nodes) (fsnode_id (fsnode files [])) files }
{}
