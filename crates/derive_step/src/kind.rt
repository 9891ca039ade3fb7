//! What the walk over the edits of a changeset has to know of a derived kind of node.
ghost use Rattle.std.specs.Prelude.{◌≡◌, ◌∷◌, ◌++◌, [], ℕ, List, Bool, true, Option, option_map, OnOk, IfOk};
ghost use Rattle.changeset_model.specs.Path.{Path};
ghost use Rattle.changeset_model.specs.Changeset.{File as ModelFile};
ghost use Rattle.tree_fold.specs.View.{file_view};
ghost use Rattle.derive_step.specs.declared.made.Made.{Made as MadeOfAll};
ghost use Rattle.derive_step.specs.Places.{dir_of};
ghost use Rattle.derive_step.specs.Walk.{Sides, both_seen, made_in};
ghost use Rattle.derive_step.specs.Join.{made_at};

use crate::made::{Made, MadeDirs};
use node_fields::Name;
use node_table::Node;
use repo_path::RepoPath;
use std::alloc::{AllocError, Global};
use tree_fold::File;

/// A kind of node that is derived for directories, as one changeset makes it. All that kinds differ in is which entry a
/// file that is set has, and the nodes that it has of its own.
pub(crate) trait Kind {
    /// What a directory has under a name.
    type Entry: Copy;

    // An entry as contracts see it, and whether it keeps the rules of its fields.
    ghost Seen: { Type 0 };

    ghost seen: { Self.Entry → Seen };

    ghost is_kept: { Seen → Bool };

    // Whether it is a file's, and not a directory's.
    ghost is_file: { Seen → Bool };

    // Of a directory that was made.
    ghost made: { MadeOfAll → Seen };

    // Of a path where a file is set, from those before of both parents, and the nodes that the file has of its own.
    ghost set: { Self → Path → Sides Seen → ModelFile → Seen };

    ghost own: { Self → Path → Sides Seen → ModelFile → List (List ℕ) };

    // Of a name in a directory that both parents have, from the entry of the directory that was made there, and the own
    // nodes.
    ghost joined: { Self → Path → List ℕ → Option Seen → (a b : Seen) → Option Seen };

    ghost own_joined: { Self → Path → List ℕ → (a b : Seen) → List (List ℕ) };

    /// The entry of a path where a file is set, from those before of both parents. The file's own nodes are put to the
    /// nodes.
    fn set(
        &self,
        alloc: Global,
        path: &RepoPath,
        file: File,
        before: (Option<Self::Entry>, Option<Self::Entry>),
        nodes: &mut Vec<Node>,
    ) -> Result<Self::Entry, AllocError>
        ensures entry { IfOk result (λ entry. seen entry ≡ set self.now path.now (both_seen seen before) (file_view file)) }
        ensures nodes { OnOk result (nodes.new.items ≡ nodes.old.items ++ own self.now path.now (both_seen seen before) (file_view file)) };

    /// The entry of a name that both parents have, which no edit decides. The own nodes of a file that is new at the
    /// changeset are put to the nodes.
    fn join(
        &self,
        alloc: Global,
        dir: Option<&RepoPath>,
        name: &Name,
        both: (Self::Entry, Self::Entry),
        made_dirs: &MadeDirs,
        nodes: &mut Vec<Node>,
    ) -> Result<Option<Self::Entry>, AllocError>
        ensures entry { IfOk result (λ entry. option_map seen entry ≡ joined self.now (dir_of dir.entry) name.now (made_at (made_in made made_dirs.now) (dir_of dir.entry ++ name.now ∷ [])) (seen both.0) (seen both.1)) }
        ensures nodes { OnOk result (nodes.new.items ≡ nodes.old.items ++ own_joined self.now (dir_of dir.entry) name.now (seen both.0) (seen both.1)) };

    /// Whether an entry is a file's.
    fn is_file(entry: &Self::Entry) -> bool
        ensures { result ≡ is_file (seen entry.now) };

    /// The entry of a directory that was made.
    fn made(dir: &Made) -> Self::Entry
        ensures { seen result ≡ made dir.now };

    /// An entry keeps the rules of its fields.
    fn keep_the_rules(entry: &Self::Entry)
        ensures { is_kept (seen entry.now) ≡ true };
}
