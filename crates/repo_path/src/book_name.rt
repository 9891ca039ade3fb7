//! The name of a bookmark.
ghost use Rattle.std.specs.Prelude.{◌≡◌, ◌↔◌, ℕ, None, Some, IfOk, IsErrOf, IsTrue, not, position, nat_eq, refl};
ghost use Rattle.std.specs.Cmp.{partial_equiv_from_equiv};
ghost use Rattle.std.specs.Cmp.Lexicographic.{pointwise, slice_cmp, nat_list_eq_equiv, nat_list_cmp_total, texts_ties, texts_po};
ghost use Rattle.std.specs.Ordering.{nat_cmp};
ghost use Rattle.history_model.specs.Bookmark.{is_name, is_name_byte, name_fault};
ghost use Rattle.repo_path.specs.declared.book_name.NameFault.TheVariants.{Memory};

use std::alloc::{AllocError, Global};
use std::cmp::Ordering;
use std::fmt;
use std::marker::Model;
use thiserror::Error;

/// The most bytes of a name.
pub const LONGEST_NAME: usize = 128;

/// Why a text gave no name.
#[derive(Clone, Copy, Debug, PartialEq, Eq, Error)]
pub enum NameFault {
    /// The text is no name.
    #[error("no name: wrong at byte {at}")]
    BadName {
        /// The place of the first byte among the first 128 that isn't allowed, else 128 where the text is longer, and 0
        /// where it is empty.
        at: usize,
    },
    /// Memory ran out.
    #[error("memory ran out")]
    Memory,
}

impl From<AllocError> for NameFault {
    ghost from_gives = { λ _ e. e ≡ Memory };

    fn from(_e: AllocError) -> NameFault {
        NameFault::Memory
    }
}

/// A name: 1 to 128 of the bytes `A-Z a-z 0-9 _ . -`. Contracts see its bytes.
#[derive(Drop)]
pub struct BookName {
    text: String,
}

impl Model for BookName {
    ghost use Rattle.std.specs.Prelude.{◌≡◌, List, ℕ, true, string_bytes};
    ghost use Rattle.history_model.specs.Bookmark.{is_name};

    ghost Value = { List ℕ };

    ghost view = { λ n. string_bytes n.text };

    ghost invariant = { λ n. is_name (string_bytes n.text) ≡ true };
}

impl BookName {
    /// Reads a name, in memory of its own.
    pub fn parse(alloc: Global, text: &str) -> Result<BookName, NameFault>
        ensures name { IfOk result (λ n. n ≡ text.now) }
        ensures rules { IfOk result (λ n. IsTrue (is_name n)) }
        ensures bad { (at : ℕ) → (IsErrOf result (NameFault.BadName at) ↔ (name_fault text.now ≡ Some at)) }
    {
        if let Some(at) = name_fault_of(text.as_bytes()) {
            return Err(NameFault::BadName { at });
        }
        let text = String::from_str(alloc, text)?;
        Ok(BookName { text })
    }

    /// The name as text.
    pub fn as_str(&self) -> &str
        ensures text { result.now ≡ self.now }
        ensures rules { IsTrue (is_name self.now) }
    {
        self.text.as_str()
    }

    /// The same name, in memory of its own.
    pub fn copy(&self, alloc: Global) -> Result<BookName, AllocError>
        ensures { IfOk result (λ n. n ≡ self.now) }
    {
        let text = String::from_str(alloc, self.text.as_str())?;
        Ok(BookName { text })
    }
}

// Where a text first breaks the rule.
fn name_fault_of(text: &[u8]) -> Option<usize>
    ensures { result ≡ name_fault text.now }
{
    let len = LONGEST_NAME.min(text.len());
    match first_bad(&text[..len]) {
        Some(at) => Some(at),
        None if text.len() > LONGEST_NAME => Some(LONGEST_NAME),
        None if text.is_empty() => Some(0),
        None => None,
    }
}

// The first byte that isn't allowed.
fn first_bad(text: &[u8]) -> Option<usize>
    ensures { result ≡ position (λ b. not (is_name_byte b)) text.now }
{
    text.iter().position(|b| !is_name_byte_of(*b))
}

fn is_name_byte_of(byte: u8) -> bool
    ensures { result ≡ is_name_byte byte }
{
    matches!(byte, b'A'..=b'Z' | b'a'..=b'z' | b'0'..=b'9' | b'_' | b'.' | b'-')
}

impl PartialEq for BookName {
    ghost eq = { pointwise nat_eq };

    ghost laws = { partial_equiv_from_equiv nat_list_eq_equiv };

    fn eq(&self, other: &BookName) -> bool {
        self.text == other.text
    }
}

impl Eq for BookName {
    ghost laws = { nat_list_eq_equiv };
}

impl PartialOrd for BookName {
    ghost partial_cmp = { λ x y. Some (slice_cmp nat_cmp x y) };

    ghost laws = { texts_po };

    fn partial_cmp(&self, other: &BookName) -> Option<Ordering> {
        Some(self.cmp(other))
    }
}

impl Ord for BookName {
    ghost cmp = { slice_cmp nat_cmp };

    ghost total = { nat_list_cmp_total };

    ghost matches_partial_cmp = { λ x y. refl };

    ghost matches_eq = { texts_ties };

    fn cmp(&self, other: &BookName) -> Ordering {
        self.text.as_str().cmp(other.text.as_str())
    }
}

impl fmt::Debug for BookName {
    fn fmt<W: fmt::Write>(&self, f: &mut fmt::Formatter<W>) -> fmt::Result {
        f.write_str(self.as_str())
    }
}

impl fmt::Display for BookName {
    fn fmt<W: fmt::Write>(&self, f: &mut fmt::Formatter<W>) -> fmt::Result {
        f.write_str(self.as_str())
    }
}
