//! What isn't allowed.

use repo_path::RepoPath;

/// A path that the rules don't allow.
#[derive(Clone, Copy, Debug)]
pub struct Denied<'a> {
    pub path: &'a RepoPath,
    /// The number, from 0, of the first rule that matches. None where none does.
    pub rule: Option<usize>,
}
