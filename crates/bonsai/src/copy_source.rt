//! Where a file was copied from.
ghost use Rattle.std.specs.Prelude.{◌≡◌, IfOk, option_map};
ghost use Rattle.std.specs.Option.{option_eq};
ghost use Rattle.std.specs.Cmp.{partial_equiv_from_equiv};
ghost use Rattle.bonsai.specs.Equal.{source_eq};
ghost use Rattle.bonsai.specs.EqualViews.{sources_equiv};
ghost use Rattle.bonsai.specs.View.{source_view};

use repo_path::RepoPath;
use std::alloc::{AllocError, Global};

/// Where a file was copied from: a path at a parent. It is looked up in no tree.
#[derive(Debug, Drop)]
pub struct CopySource {
    /// The parent's place, from 0.
    pub parent: u8,
    pub path: RepoPath,
}

impl CopySource {
    /// The same source, in memory of its own.
    pub fn copy(&self, alloc: Global) -> Result<CopySource, AllocError>
        ensures { IfOk result (λ s. source_view s ≡ source_view self.now) }
    {
        let path = self.path.copy(alloc)?;
        Ok(CopySource {
            parent: self.parent,
            path,
        })
    }
}

impl PartialEq for CopySource {
    ghost eq = { λ s t. source_eq (source_view s) (source_view t) };

    ghost laws = { partial_equiv_from_equiv sources_equiv };

    fn eq(&self, other: &CopySource) -> bool {
        self.parent == other.parent && self.path == other.path
    }
}

impl Eq for CopySource {
    ghost laws = { sources_equiv };
}

/// The same source if there is one, in memory of its own.
pub(crate) fn copy_of_source(
    alloc: Global,
    source: &Option<CopySource>,
) -> Result<Option<CopySource>, AllocError>
    ensures { IfOk result (λ s. option_map source_view s ≡ option_map source_view source.now) }
{
    match source {
        Some(source) => Ok(Some(source.copy(alloc)?)),
        None => Ok(None),
    }
}

/// Whether both are there and the same, or neither is there.
pub(crate) fn are_same_source(left: &Option<CopySource>, right: &Option<CopySource>) -> bool
    ensures { result ≡ option_eq source_eq (option_map source_view left.now) (option_map source_view right.now) }
{
    match (left, right) {
        (Some(left), Some(right)) => left == right,
        (None, None) => true,
        (Some(_), None) | (None, Some(_)) => false,
    }
}
