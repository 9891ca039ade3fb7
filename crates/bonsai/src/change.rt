//! What a changeset does at one path.
ghost use Rattle.std.specs.Prelude.{◌≡◌, IfOk};
ghost use Rattle.std.specs.Cmp.{partial_equiv_from_equiv};
ghost use Rattle.bonsai.specs.Equal.{change_eq};
ghost use Rattle.bonsai.specs.EqualViews.{changes_equiv};
ghost use Rattle.bonsai.specs.View.{change_view};

use crate::FileKind;
use crate::copy_source::{CopySource, are_same_source, copy_of_source};
use object_id::Id;
use std::alloc::{AllocError, Global};

/// What a changeset does at a path.
#[derive(Debug, Drop)]
pub enum Change {
    /// It sets a file.
    Set {
        /// The id of the content.
        content: Id,
        kind: FileKind,
        /// The content's length in bytes, at most `MOST_SIZE`.
        size: u64,
        /// Where the file was copied from, if it is told. The first version tells none.
        copied: Option<CopySource>,
    },
    /// It removes what stands at the path, and nothing where nothing does.
    Delete,
}

impl Change {
    /// The same change, in memory of its own.
    pub fn copy(&self, alloc: Global) -> Result<Change, AllocError>
        ensures { IfOk result (λ c. change_view c ≡ change_view self.now) }
    {
        match self {
            Change::Set {
                content,
                kind,
                size,
                copied,
            } => Ok(Change::Set {
                content: *content,
                kind: *kind,
                size: *size,
                copied: copy_of_source(alloc, copied)?,
            }),
            Change::Delete => Ok(Change::Delete),
        }
    }
}

impl PartialEq for Change {
    ghost eq = { λ a b. change_eq (change_view a) (change_view b) };

    ghost laws = { partial_equiv_from_equiv changes_equiv };

    fn eq(&self, other: &Change) -> bool {
        match (self, other) {
            (
                Change::Set {
                    content,
                    kind,
                    size,
                    copied,
                },
                Change::Set {
                    content: other_content,
                    kind: other_kind,
                    size: other_size,
                    copied: other_copied,
                },
            ) => {
                content == other_content
                    && kind.to_byte() == other_kind.to_byte()
                    && size == other_size
                    && are_same_source(copied, other_copied)
            }
            (Change::Delete, Change::Delete) => true,
            (Change::Set { .. }, Change::Delete) | (Change::Delete, Change::Set { .. }) => false,
        }
    }
}

impl Eq for Change {
    ghost laws = { changes_equiv };
}
