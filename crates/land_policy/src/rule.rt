//! One rule.
ghost use Rattle.std.specs.Prelude.{◌≡◌, List, ℕ, bytes_eq, option_map};
ghost use Rattle.changeset_model.specs.Path.{path_eq};
ghost use Rattle.land_policy.specs.Index.{place_of, same_caller};
ghost use Rattle.land_policy.specs.View.{rule_view};

use repo_path::{BookName, RepoPath};

/// A rule. It speaks of everyone where it names nobody, and of everything where it has no path.
#[derive(Drop)]
pub(crate) struct Rule {
    pub(crate) allows: bool,
    pub(crate) name: Option<BookName>,
    pub(crate) path: Option<RepoPath>,
}

impl Rule {
    /// Whether it speaks of just this caller, or of everyone where none is given.
    pub(crate) fn is_of(&self, caller: Option<&BookName>) -> bool
        ensures { result ≡ same_caller (option_map (λ n. n.now) caller.entry) (rule_view self.now).name }
    {
        match (caller, &self.name) {
            (Some(caller), Some(name)) => *name == *caller,
            (None, None) => true,
            (Some(_), None) | (None, Some(_)) => false,
        }
    }

    /// The text of its path, which is empty where it speaks of everything.
    pub(crate) fn place(&self) -> &str
        ensures { (key : List ℕ) → path_eq (rule_view self.now).elements (place_of key) ≡ bytes_eq result.now key }
    {
        match &self.path {
            Some(path) => path.as_str(),
            None => "",
        }
    }
}
