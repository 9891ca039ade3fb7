//! Laws of trees and their files, each the contract of a function that does nothing.
ghost use Rattle.std.specs.Prelude.{◌≡◌, ◌∷◌, ◌++◌, ℕ, false, List, [], map, Contains};
ghost use Rattle.changeset_model.specs.Path.{Path, comparable, IsRising};
ghost use Rattle.changeset_model.specs.Changeset.{Changeset, File, touched_paths};
ghost use Rattle.history_model.specs.Tree.{tree, files, file_at, is_dir, below, children};

/// The files of a chain stand by strictly rising paths, and at each path is what the tree has there.
pub fn files_are_the_tree()
    ensures order { (cs : List Changeset) → IsRising (map (λ f. f.0) (files cs)) }
    ensures tree { (cs : List Changeset) (p : Path) → file_at (files cs) p ≡ tree cs p }
{}

/// A tree is told by its files at paths.
pub fn files_at_paths_tell_a_tree()
    ensures files { (old new : List (Path × File)) → IsRising (map (λ f. f.0) old) → IsRising (map (λ f. f.0) new) → ((p : Path) → file_at old p ≡ file_at new p) → old ≡ new }
    ensures chains { (first second : List Changeset) → ((p : Path) → tree first p ≡ tree second p) → files first ≡ files second }
{}

/// Two stacks of which no touched paths are comparable give one tree in either order: the files of a tree that takes the
/// first and then the second are those of a tree that takes the second and then the first.
pub fn stacks_in_either_order()
    ensures { (cs first second : List Changeset) → ((l r : Path) → Contains (touched_paths first) l → Contains (touched_paths second) r → comparable l r ≡ false) →
        files (cs ++ first ++ second) ≡ files (cs ++ second ++ first) }
{}

/// Where no directory is, nothing stands in it.
pub fn no_directory_is_empty()
    ensures { (fs : List (Path × File)) (d : Path) → is_dir fs d ≡ false → children (below d fs) ≡ [] }
{}

/// What stands in a directory of files by rising paths stands by strictly rising names.
pub fn children_rise()
    ensures { (fs : List (Path × File)) (d : Path) → IsRising (map (λ f. f.0) fs) → IsRising (map (λ c. c.0 ∷ []) (children (below d fs))) }
{}
