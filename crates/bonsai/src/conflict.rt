//! Set paths that lie under one another.
ghost use Rattle.std.specs.Prelude.{◌≡◌, None, option_map};
ghost use Rattle.bonsai.specs.Conflict.{neighbours};
ghost use Rattle.bonsai.specs.View.{edits_view};

use crate::change::Change;
use crate::edit::Edit;
use repo_path::RepoPath;

/// Two set paths of one changeset, of which the one lies under the other.
#[derive(Clone, Copy)]
pub(crate) struct Conflict<'a> {
    pub(crate) short: &'a RepoPath,
    pub(crate) long: &'a RepoPath,
}

/// The first set path under the one set before it. Where the paths rise, no other set path comes between a path and the
/// first one under it, so this is the first of all that lie under any.
pub(crate) fn first_conflict(edits: &[Edit]) -> Option<Conflict<'_>>
    ensures { option_map (λ c. (c.short.now, c.long.now)) result ≡ neighbours None (edits_view edits.now) }
{
    let mut before: Option<&RepoPath> = None;
    for edit in edits {
        if let Change::Set { .. } = edit.change {
            let long = &edit.path;
            if let Some(short) = before {
                if short.is_strict_prefix(long) {
                    return Some(Conflict { short, long });
                }
            }
            before = Some(long);
        }
    }
    None
}
