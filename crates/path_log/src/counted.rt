//! Lines of which a link is looked up at the cost of one step.
ghost use Rattle.std.specs.Prelude.{◌≡◌, ◌+◌, if◌then◌else◌, None, IsTrue};
ghost use Rattle.path_log.specs.Line.{last_logged};

use crate::lines::Lines;
use ancestry::Steps;
use repo_path::RepoPath;
use std::sync::ledger::Ledger;

/// Lines whose links can be looked up at the cost of a step, and in no other way.
#[derive(Drop)]
pub(crate) struct CountedLines<'a, N> {
    lines: &'a N,
}

impl<'a, N: Lines> CountedLines<'a, N> {
    /// These lines.
    pub(crate) fn new(lines: &'a N) -> CountedLines<'a, N>
        ensures { result.lines.now ≡ lines.now }
    {
        CountedLines { lines }
    }

    /// The last that is logged at the path, where a file is there.
    pub(crate) fn file_link<L: Ledger>(
        &self,
        at: u32,
        path: &RepoPath,
        steps: &mut Steps<L>,
    ) -> Option<u32>
        requires { IsTrue (N.may_be_asked self.now.lines.now at) }
        ensures link { result ≡ if N.has_file self.now.lines.now path.now at then last_logged (N.parent_of self.now.lines.now) (N.is_logged self.now.lines.now path.now) at else None }
        ensures step { steps.new ≡ steps.old + 1 }
    {
        steps.tick();
        self.lines.file_link(at, path)
    }

    /// The last that is logged at the path, where no file is there.
    pub(crate) fn deleted_link<L: Ledger>(
        &self,
        at: u32,
        path: &RepoPath,
        steps: &mut Steps<L>,
    ) -> Option<u32>
        requires { IsTrue (N.may_be_asked self.now.lines.now at) }
        ensures link { result ≡ if N.has_file self.now.lines.now path.now at then None else last_logged (N.parent_of self.now.lines.now) (N.is_logged self.now.lines.now path.now) at }
        ensures step { steps.new ≡ steps.old + 1 }
    {
        steps.tick();
        self.lines.deleted_link(at, path)
    }

    /// Its first parent.
    pub(crate) fn parent(&self, at: u32) -> Option<u32>
        requires { IsTrue (N.may_be_asked self.now.lines.now at) }
        ensures { result ≡ N.parent_of self.now.lines.now at }
    {
        self.lines.parent(at)
    }
}
