//! How much a repository has.
ghost use Rattle.std.specs.Prelude.{◌≡◌, count_by, filter, is_some, length};
ghost use Rattle.std.specs.BTreeMap.{values, IsOrdered};
ghost use Rattle.repo_machine.specs.Counting.{counts_of, is_content_entry, is_landing_entry};

use crate::machine::Machine;
use crate::records::{Entry, Record};
use object_id::Id;
use repo_path::BookName;
use std::collections::BTreeMap;

/// How much a repository has.
#[derive(Clone, Copy, Debug, PartialEq, Eq)]
pub struct Counts {
    /// Entries that are stored.
    pub entries: u64,
    /// Contents that are stored.
    pub contents: u64,
    /// Known changesets, of which no two have one id.
    pub changesets: u64,
    /// Bookmarks that have a head.
    pub bookmarks: u64,
    /// Stacks that were landed.
    pub landings: u64,
    /// The bytes of a journal that stands for the history, with its closing gate.
    pub size: u64,
}

impl Machine {
    /// How much the repository has. It goes through all entries and all bookmarks.
    pub fn counts(&self) -> Counts
        ensures { result ≡ counts_of self.now.history }
    {
        let entries = self.entries.as_slice();
        Counts {
            entries: self.stored_length(),
            contents: contents_in(entries),
            changesets: u64::from(self.changesets.len()),
            bookmarks: heads_in(&self.heads),
            landings: landings_in(entries),
            size: self.size(),
        }
    }
}

impl Entry {
    fn is_content(&self) -> bool
        ensures { result ≡ is_content_entry self.now }
    {
        matches!(self.record, Record::Content { .. } | Record::Whole(_))
    }

    fn is_landing(&self) -> bool
        ensures { result ≡ is_landing_entry self.now }
    {
        matches!(self.record, Record::Land(_))
    }
}

fn contents_in(entries: &[Entry]) -> u64
    ensures { result ≡ count_by is_content_entry entries.now }
{
    let mut count = 0;
    'entries: for entry in entries {
        if entry.is_content() {
            count += 1;
        }
    }
    count
}

fn landings_in(entries: &[Entry]) -> u64
    ensures { result ≡ count_by is_landing_entry entries.now }
{
    let mut count = 0;
    'entries: for entry in entries {
        if entry.is_landing() {
            count += 1;
        }
    }
    count
}

// How many names have a head.
fn heads_in(heads: &BTreeMap<BookName, Option<Id>>) -> u64
    ensures count { result ≡ length (filter is_some (values heads.now)) }
    ensures ordered { IsOrdered ⟦<BookName as Ord>⟧.cmp heads.now }
{
    let mut count = 0;
    for head in heads.values() {
        if head.is_some() {
            count += 1;
        }
    }
    count
}
