//! The files of a tree in one list.
ghost use Rattle.std.specs.Prelude.{◌≡◌, [], map, option_map};
ghost use Rattle.changeset_model.specs.Path.{IsRising};
ghost use Rattle.history_model.specs.Tree.{file_at};
ghost use Rattle.tree_fold.specs.View.{file_view};
ghost use Rattle.merge_tree.specs.View.{flats_view};

use repo_path::RepoPath;
use std::alloc::Global;
use std::marker::Model;
use tree_fold::File;

/// A file of a tree with its path.
#[derive(Debug, Drop)]
pub struct FlatFile {
    pub path: RepoPath,
    pub file: File,
}

/// The files of a tree by strictly rising paths, which contracts see.
#[derive(Drop)]
pub struct Flat {
    pub(crate) files: Vec<FlatFile>,
}

impl Model for Flat {
    ghost use Rattle.std.specs.Prelude.{◌≡◌, List, true};
    ghost use Rattle.std.specs.Coded.{coded_list, coded×};
    ghost use Rattle.std.specs.FinMap.{is_sorted};
    ghost use Rattle.changeset_model.specs.Path.{Path, path_cmp};
    ghost use Rattle.changeset_model.specs.Changeset as model;
    ghost use Rattle.changeset_model.specs.Codes.{coded_path, coded_file};
    ghost use Rattle.merge_tree.specs.View.{flats_view};

    ghost Value = { List (Path × model.File) };

    ghost coded = { coded_list (coded× coded_path coded_file) };

    ghost view = { λ t. flats_view t.files.items };

    ghost invariant = { λ t. is_sorted path_cmp (flats_view t.files.items) ≡ true };
}

impl Flat {
    /// A tree without files. It takes no memory.
    pub fn new(alloc: Global) -> Flat
        ensures { result ≡ [] }
    {
        Flat {
            files: Vec::new(alloc),
        }
    }

    /// The files, by strictly rising paths.
    pub fn files(&self) -> &[FlatFile]
        ensures files { flats_view result.now ≡ self.now }
        ensures rising { IsRising (map (λ f. f.0) self.now) }
    {
        self.files.as_slice()
    }

    /// The file at a path. It costs a step for each file.
    pub fn at(&self, path: &RepoPath) -> Option<&File>
        ensures { option_map (λ f. file_view f.now) result ≡ file_at self.now path.now }
    {
        file_among(self.files.as_slice(), path)
    }
}

// The file at a path.
fn file_among<'a>(files: &'a [FlatFile], path: &RepoPath) -> Option<&'a File>
    ensures { option_map (λ f. file_view f.now) result ≡ file_at (flats_view files.now) path.now }
{
    for file in files {
        if *path == file.path {
            return Some(&file.file);
        }
    }
    None
}
