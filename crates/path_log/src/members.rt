//! Links that are found by asking one changeset after the other.
ghost use Rattle.std.specs.Prelude.{◌≡◌, ℕ, Bool, Option, IsTrue};
ghost use Rattle.changeset_model.specs.Path.{Path};
ghost use Rattle.path_log.specs.Line.{IsEarlier, last_logged};

use crate::lines::Lines;
use repo_path::RepoPath;

/// Changesets that go by numbers, each with its first parent, and what each did at a path.
pub trait Members {
    /// The numbers that may be asked of.
    ghost may_be_asked: { Self → ℕ → Bool };

    ghost parent_of: { Self → ℕ → Option ℕ };

    /// Whether a file is at the path there.
    ghost has_file: { Self → Path → ℕ → Bool };

    /// Whether the changeset sets the path, or has another file there than its first parent.
    ghost is_logged: { Self → Path → ℕ → Bool };

    fn has_file(&self, at: u32, path: &RepoPath) -> bool
        requires { IsTrue (may_be_asked self.now at) }
        ensures { result ≡ has_file self.now path.now at };

    fn is_logged(&self, at: u32, path: &RepoPath) -> bool
        requires { IsTrue (may_be_asked self.now at) }
        ensures { result ≡ is_logged self.now path.now at };

    /// Its first parent, if it has one.
    fn parent(&self, at: u32) -> Option<u32>
        requires { IsTrue (may_be_asked self.now at) }
        ensures { result ≡ parent_of self.now at };

    // A first parent is below its child, and may be asked of too.
    ghost earlier: { (members : Self) → IsEarlier (may_be_asked members) (parent_of members) };
}

/// Lines whose links are found by asking one member after the other. It serves where nothing keeps the links.
#[derive(Drop)]
pub struct ByMembers<'a, M> {
    pub members: &'a M,
}

impl<'a, M: Members> Lines for ByMembers<'a, M> {
    ghost may_be_asked = { λ lines n. M.may_be_asked lines.members.now n };

    ghost parent_of = { λ lines n. M.parent_of lines.members.now n };

    ghost has_file = { λ lines p n. M.has_file lines.members.now p n };

    ghost is_logged = { λ lines p n. M.is_logged lines.members.now p n };

    fn file_link(&self, at: u32, path: &RepoPath) -> Option<u32> {
        if self.members.has_file(at, path) {
            last_by_members(self.members, at, path)
        } else {
            None
        }
    }

    fn deleted_link(&self, at: u32, path: &RepoPath) -> Option<u32> {
        let is_gone = !self.members.has_file(at, path);
        if is_gone {
            last_by_members(self.members, at, path)
        } else {
            None
        }
    }

    fn parent(&self, at: u32) -> Option<u32> {
        self.members.parent(at)
    }

    ghost earlier = { λ lines. M.earlier lines.members.now };
}

/// The last on the line of `at` that is logged at the path. It asks each member down to that one.
pub fn last_by_members<M: Members>(members: &M, at: u32, path: &RepoPath) -> Option<u32>
    requires { IsTrue (M.may_be_asked members.now at) }
    ensures { result ≡ last_logged (M.parent_of members.now) (M.is_logged members.now path.now) at }
{
    let mut next = Some(at);
    while let Some(here) = next {
        if members.is_logged(here, path) {
            return Some(here);
        }
        next = members.parent(here);
    }
    None
}
