//! A path of the repository.
ghost use Rattle.std.specs.Prelude.{◌≡◌, ◌≤◌, ◌↔◌, ℕ, length, false, None, Some, IfOk, IsErrOf, IsTrue, refl};
ghost use Rattle.std.specs.Cmp.{partial_equiv_from_equiv, partial_order_from_agreeing_total};
ghost use Rattle.changeset_model.specs.Path.{Path, elements, text_of, is_path, path_fault, path_eq, path_cmp, comparable as are_comparable, is_strict_prefix as is_strictly_above};
ghost use Rattle.changeset_model.proofs.Paths.{path_cmp_total};
ghost use Rattle.repo_path.specs.Order.{path_eq_equiv, path_eq_ties, path_partial_order};

use crate::path_fault::PathFault;
use crate::path_text::{LONGEST_PATH, comparable, compare, lies_under, path_fault_of};
use std::alloc::{AllocError, Global};
use std::cmp::Ordering;
use std::marker::Model;
use std::{fmt, str};

/// A path: 1 to 4,096 bytes of UTF-8, in elements that a slash parts. Contracts see its elements.
#[derive(Drop)]
pub struct RepoPath {
    text: String,
}

impl Model for RepoPath {
    ghost use Rattle.std.specs.Prelude.{◌≡◌, true, string_bytes};
    ghost use Rattle.changeset_model.specs.Path.{Path, elements, is_path};
    ghost use Rattle.changeset_model.specs.Codes.{coded_path};

    ghost Value = { Path };

    ghost coded = { coded_path };

    ghost view = { λ p. elements (string_bytes p.text) };

    ghost invariant = { λ p. is_path (elements (string_bytes p.text)) ≡ true };
}

impl RepoPath {
    /// Reads a path, in memory of its own.
    pub fn parse(alloc: Global, text: &str) -> Result<RepoPath, PathFault>
        ensures path { IfOk result (λ p. p ≡ elements text.now) }
        ensures rules { IfOk result (λ p. IsTrue (is_path p)) }
        ensures unruly { (at : ℕ) → IsErrOf result (PathFault.BadPath at) → is_path (elements text.now) ≡ false }
        ensures bad { (at : ℕ) → (IsErrOf result (PathFault.BadPath at) ↔ (path_fault text.now ≡ Some at)) }
    {
        RepoPath::from_bytes(alloc, text.as_bytes())
    }

    /// Reads a path of bytes that may be no text.
    pub fn from_bytes(alloc: Global, bytes: &[u8]) -> Result<RepoPath, PathFault>
        ensures path { IfOk result (λ p. p ≡ elements bytes.now) }
        ensures rules { IfOk result (λ p. IsTrue (is_path p)) }
        ensures unruly { (at : ℕ) → IsErrOf result (PathFault.BadPath at) → is_path (elements bytes.now) ≡ false }
        ensures bad { (at : ℕ) → (IsErrOf result (PathFault.BadPath at) ↔ (path_fault bytes.now ≡ Some at)) }
    {
        if let Some(at) = path_fault_of(bytes) {
            return Err(PathFault::BadPath { at });
        }
        let Ok(text) = str::from_utf8(bytes) else {
            unreachable!()
        };
        let text = String::from_str(alloc, text)?;
        Ok(RepoPath { text })
    }

    /// The elements with a slash between each two.
    pub fn as_str(&self) -> &str
        ensures text { result.now ≡ text_of self.now }
        ensures elements { elements result.now ≡ self.now }
        ensures path { IsTrue (is_path self.now) }
        ensures length { length result.now ≤ LONGEST_PATH }
    {
        self.text.as_str()
    }

    /// Whether the two are equal or one lies under the other.
    pub fn comparable(&self, other: &RepoPath) -> bool
        ensures { result ≡ are_comparable self.now other.now }
    {
        comparable(self.text.as_bytes(), other.text.as_bytes())
    }

    /// Whether another path lies under this one.
    pub fn is_strict_prefix(&self, of: &RepoPath) -> bool
        ensures { result ≡ is_strictly_above self.now of.now }
    {
        lies_under(of.text.as_bytes(), self.text.as_bytes())
    }

    /// The same path, in memory of its own.
    pub fn copy(&self, alloc: Global) -> Result<RepoPath, AllocError>
        ensures { IfOk result (λ p. p ≡ self.now) }
    {
        let text = String::from_str(alloc, self.text.as_str())?;
        Ok(RepoPath { text })
    }
}

impl PartialEq for RepoPath {
    ghost eq = { path_eq };

    ghost laws = { partial_equiv_from_equiv path_eq_equiv };

    fn eq(&self, other: &RepoPath) -> bool {
        self.text == other.text
    }
}

impl Eq for RepoPath {
    ghost laws = { path_eq_equiv };
}

impl PartialOrd for RepoPath {
    ghost partial_cmp = { λ p q. Some (path_cmp p q) };

    ghost laws = { path_partial_order };

    fn partial_cmp(&self, other: &RepoPath) -> Option<Ordering> {
        Some(self.cmp(other))
    }
}

impl Ord for RepoPath {
    ghost cmp = { path_cmp };

    ghost total = { path_cmp_total };

    ghost matches_partial_cmp = { λ p q. refl };

    ghost matches_eq = { path_eq_ties };

    fn cmp(&self, other: &RepoPath) -> Ordering {
        compare(self.text.as_bytes(), other.text.as_bytes())
    }
}

impl fmt::Debug for RepoPath {
    fn fmt<W: fmt::Write>(&self, f: &mut fmt::Formatter<W>) -> fmt::Result {
        f.write_str(self.as_str())
    }
}

impl fmt::Display for RepoPath {
    fn fmt<W: fmt::Write>(&self, f: &mut fmt::Formatter<W>) -> fmt::Result {
        f.write_str(self.as_str())
    }
}
