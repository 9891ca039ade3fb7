//! Kinds of nodes.

/// What a directory's node tells of.
#[derive(Clone, Copy, Debug)]
pub(crate) enum Kind {
    Fsnode,
    Unode,
    Deleted,
}
