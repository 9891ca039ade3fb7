//! The kinds of calls of a disk that can be made to fail.

#[derive(Clone, Copy, Debug, PartialEq, Eq)]
pub enum CallKind {
    Size,
    Read,
    Write,
    Sync,
}
