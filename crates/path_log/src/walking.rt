//! From link to link.
ghost use Rattle.std.specs.Prelude.{◌≡◌, ◌+◌, ◌*◌, ◌≤◌, length, IfOk, IsTrue};
ghost use Rattle.path_log.specs.Line.{last_logged as last_on_line, logged};

use crate::counted::CountedLines;
use crate::lines::Lines;
use ancestry::Steps;
use repo_path::RepoPath;
use std::alloc::{AllocError, Global};
use std::sync::ledger::Ledger;

/// The changesets on the line of `at` that are logged at the path, newest first. A step is a link that is looked up; there
/// are at most two for each of these changesets and two more, also where memory runs out.
pub fn walk<N: Lines, L: Ledger>(
    alloc: Global,
    lines: &N,
    at: u32,
    path: &RepoPath,
    steps: &mut Steps<L>,
) -> Result<Vec<u32>, AllocError>
    requires { IsTrue (N.may_be_asked lines.now at) }
    ensures log { IfOk result (λ log. log.items ≡ logged (N.parent_of lines.now) (N.is_logged lines.now path.now) at) }
    ensures counted { steps.old ≤ steps.new }
    ensures cost { steps.new ≤ steps.old + 2 * length (logged (N.parent_of lines.now) (N.is_logged lines.now path.now) at) + 2 }
{
    log_of(alloc, &CountedLines::new(lines), at, path, steps)
}

// The same, of lines whose links can't be looked up without a step.
fn log_of<N: Lines, L: Ledger>(
    alloc: Global,
    lines: &CountedLines<N>,
    at: u32,
    path: &RepoPath,
    steps: &mut Steps<L>,
) -> Result<Vec<u32>, AllocError>
    requires { IsTrue (N.may_be_asked lines.now.lines.now at) }
    ensures log { IfOk result (λ log. log.items ≡ logged (N.parent_of lines.now.lines.now) (N.is_logged lines.now.lines.now path.now) at) }
    ensures counted { steps.old ≤ steps.new }
    ensures cost { steps.new ≤ steps.old + 2 * length (logged (N.parent_of lines.now.lines.now) (N.is_logged lines.now.lines.now path.now) at) + 2 }
{
    let mut log = Vec::new(alloc);
    let mut next = Some(at);
    while let Some(here) = next {
        let Some(link) = last_logged(lines, here, path, steps) else {
            break;
        };
        log.push(link)?;
        next = lines.parent(link);
    }
    Ok(log)
}

// The last on the line that is logged at the path.
fn last_logged<N: Lines, L: Ledger>(
    lines: &CountedLines<N>,
    at: u32,
    path: &RepoPath,
    steps: &mut Steps<L>,
) -> Option<u32>
    requires { IsTrue (N.may_be_asked lines.now.lines.now at) }
    ensures last { result ≡ last_on_line (N.parent_of lines.now.lines.now) (N.is_logged lines.now.lines.now path.now) at }
    ensures counted { steps.old ≤ steps.new }
    ensures cost { steps.new ≤ steps.old + 2 }
{
    match lines.file_link(at, path, steps) {
        Some(link) => Some(link),
        None => lines.deleted_link(at, path, steps),
    }
}
