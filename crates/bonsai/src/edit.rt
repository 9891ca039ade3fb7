//! A path with what a changeset does there.
ghost use Rattle.std.specs.Cmp.{partial_equiv_from_equiv};
ghost use Rattle.bonsai.specs.Equal.{edit_eq};
ghost use Rattle.bonsai.specs.EqualViews.{edits_equiv};
ghost use Rattle.bonsai.specs.View.{edit_view};

use crate::change::Change;
use repo_path::RepoPath;

/// A path with what a changeset does there.
#[derive(Debug, Drop)]
pub struct Edit {
    pub path: RepoPath,
    pub change: Change,
}

impl PartialEq for Edit {
    ghost eq = { λ d e. edit_eq (edit_view d) (edit_view e) };

    ghost laws = { partial_equiv_from_equiv edits_equiv };

    fn eq(&self, other: &Edit) -> bool {
        self.path == other.path && self.change == other.change
    }
}

impl Eq for Edit {
    ghost laws = { edits_equiv };
}
