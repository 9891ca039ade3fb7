//! The tree of a chain of changesets.
ghost use Rattle.std.specs.Prelude.{◌≡◌, ◌∷◌, ◌++◌, [], List, map, option_map, if◌then◌else◌, OnOk, OnErr, IfOk};
ghost use Rattle.changeset_model.specs.Path.{Path};
ghost use Rattle.changeset_model.specs.Changeset.{Changeset as ModelChangeset, set_at};
ghost use Rattle.history_model.specs.Tree.{decides, tree, files as files_of, file_at, below, children};
ghost use Rattle.tree_fold.specs.View.{file_view, child_view};
ghost use Rattle.tree_fold.specs.Listing.{dir_path};

use crate::applied::apply_edits;
use crate::child::Child;
use crate::file::File;
use crate::listing::list_dir;
use bonsai::Changeset;
use repo_path::RepoPath;
use std::alloc::{AllocError, Global};
use std::collections::BTreeMap;
use std::marker::Model;

/// The tree of a chain of changesets. Contracts see its files by strictly rising paths.
#[derive(Drop)]
pub struct Tree {
    files: BTreeMap<RepoPath, File>,
}

impl Model for Tree {
    ghost use Rattle.std.specs.Prelude.{List};
    ghost use Rattle.std.specs.Coded.{coded_list, coded×};
    ghost use Rattle.changeset_model.specs.Path.{Path};
    ghost use Rattle.changeset_model.specs.Changeset as model;
    ghost use Rattle.changeset_model.specs.Codes.{coded_path, coded_file};
    ghost use Rattle.tree_fold.specs.View.{files_view};
    ghost use Rattle.tree_fold.specs.Fold.{IsTree};

    ghost Value = { List (Path × model.File) };

    ghost coded = { coded_list (coded× coded_path coded_file) };

    ghost view = { λ t. files_view t.files.entries };

    ghost invariant = { λ t. IsTree t.files.entries };
}

impl Tree {
    /// A tree without files, which is that of no changesets. It takes no memory.
    pub fn new(alloc: Global) -> Tree
        ensures none { result ≡ [] }
        ensures tree { result ≡ files_of [] }
    {
        Tree {
            files: BTreeMap::new(alloc),
        }
    }

    /// Applies one more changeset. It costs a search for each change, and what it removes. After an error the tree is as
    /// before.
    pub fn apply(&mut self, alloc: Global, change: &Changeset) -> Result<(), AllocError>
        ensures tree { OnOk result ((cs : List ModelChangeset) → self.old ≡ files_of cs → self.new ≡ files_of (cs ++ change.now ∷ [])) }
        ensures decided { OnOk result ((p : Path) → file_at self.new p ≡ (if decides change.now p then set_at change.now p else file_at self.old p)) }
        ensures err { OnErr result (self.new ≡ self.old) }
    {
        apply_edits(alloc, &mut self.files, change.edits())
    }

    /// The file at a path.
    pub fn at(&self, path: &RepoPath) -> Option<&File>
        ensures file { option_map (λ f. file_view f.now) result ≡ file_at self.now path.now }
        ensures tree { (cs : List ModelChangeset) → self.now ≡ files_of cs → option_map (λ f. file_view f.now) result ≡ tree cs path.now }
    {
        self.files.get(path)
    }

    /// What stands directly in a directory, or in the root: the names by their bytes, each once, with its file or `None`
    /// for a directory. Where no such directory is, it is empty. It costs a step for each file below the directory.
    pub fn list(&self, alloc: Global, dir: Option<&RepoPath>) -> Result<Vec<Child>, AllocError>
        ensures { IfOk result (λ cs. map child_view cs.items ≡ children (below (dir_path dir.entry) self.now)) }
    {
        list_dir(alloc, &self.files, dir)
    }
}
