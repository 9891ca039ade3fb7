//! What the log of a path is told from.
ghost use Rattle.std.specs.Prelude.{◌≡◌, ℕ, Bool, if◌then◌else◌, Option, None, IsTrue};
ghost use Rattle.changeset_model.specs.Path.{Path};
ghost use Rattle.path_log.specs.Line.{IsEarlier, last_logged};

use repo_path::RepoPath;

/// Changesets that go by numbers, each with its first parent, and which of them changed a path last.
pub trait Lines {
    /// The numbers that may be asked of.
    ghost may_be_asked: { Self → ℕ → Bool };

    ghost parent_of: { Self → ℕ → Option ℕ };

    /// Whether a file is at the path there.
    ghost has_file: { Self → Path → ℕ → Bool };

    /// Whether the changeset sets the path, or has another file there than its first parent.
    ghost is_logged: { Self → Path → ℕ → Bool };

    /// The last on the line of `at` that is logged at the path, where a file is at the path there.
    fn file_link(&self, at: u32, path: &RepoPath) -> Option<u32>
        requires { IsTrue (may_be_asked self.now at) }
        ensures { result ≡ if has_file self.now path.now at then last_logged (parent_of self.now) (is_logged self.now path.now) at else None };

    /// The last on the line of `at` that is logged at the path, where no file is at the path there. It is the one that
    /// took the file away.
    fn deleted_link(&self, at: u32, path: &RepoPath) -> Option<u32>
        requires { IsTrue (may_be_asked self.now at) }
        ensures { result ≡ if has_file self.now path.now at then None else last_logged (parent_of self.now) (is_logged self.now path.now) at };

    /// Its first parent, if it has one.
    fn parent(&self, at: u32) -> Option<u32>
        requires { IsTrue (may_be_asked self.now at) }
        ensures { result ≡ parent_of self.now at };

    // A first parent is below its child, and may be asked of too.
    ghost earlier: { (lines : Self) → IsEarlier (may_be_asked lines) (parent_of lines) };
}
