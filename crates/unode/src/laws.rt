//! Laws of unodes, each the contract of a function that does nothing.
ghost use Rattle.std.specs.Prelude.{◌≡◌, ◌≤◌, Some, Option, List, [], ◌∷◌, length, map, reverse};
ghost use Rattle.std.specs.List.{AllByRecursion};
ghost use Rattle.byte_fields.specs.Bytes.{Id};
ghost use Rattle.changeset_model.specs.Path.{Path};
ghost use Rattle.changeset_model.specs.Changeset.{File};
ghost use Rattle.history_model.specs.Chain.{changesets};
ghost use Rattle.history_model.specs.Tree.{tree};
ghost use Rattle.history_model.specs.History.{Known};
ghost use Rattle.manifest_model.specs.Unode.{Unode, linknode_of, unode, unode_id};
ghost use Rattle.manifest_model.specs.FileHistory.{file_history};
ghost use Rattle.unode.specs.History.{IsLine, file_unodes};

/// Of a changeset and its ancestors, each the child of the next, and a file of its tree: where each of the file's unodes
/// stands under its id, they are the line that the file's history is read from, and those who made them are the history.
pub fn history_is_of_the_unodes()
    ensures line { (at : Id → Option Unode) (ks : List Known) (p : Path) (f : File) → tree (changesets (reverse ks)) p ≡ Some f →
        AllByRecursion (λ n. at (unode_id n) ≡ Some n) (file_unodes ks p) → IsLine at (unode_id (unode ks p) ∷ []) (file_unodes ks p) }
    ensures links { (ks : List Known) (p : Path) (f : File) → tree (changesets (reverse ks)) p ≡ Some f → map linknode_of (file_unodes ks p) ≡ file_history ks p }
    ensures few { (ks : List Known) (p : Path) → length (file_unodes ks p) ≤ length ks }
{}
