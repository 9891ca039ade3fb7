//! The heads of bookmarks, as the log tells them.
ghost use Rattle.std.specs.Prelude.{◌≡◌, [], OnOk};
ghost use Rattle.std.specs.BTreeMap.{Updates};
ghost use Rattle.repo_calls.specs.Calls.{line_seen};
ghost use Rattle.derive_pool.specs.Heads.{IsEntered};

use crate::channel::IdsTo;
use object_id::Id;
use repo_calls::LogEntry;
use repo_path::BookName;
use std::alloc::{AllocError, Global};
use std::collections::BTreeMap;
use std::sync::Wait;

/// The bookmarks that have a head, each with it, after the entries that were entered.
#[derive(Drop)]
pub(crate) struct Heads {
    heads: BTreeMap<BookName, Id>,
}

impl Heads {
    /// Before the first entry there are none.
    pub(crate) fn new(alloc: Global) -> Self
        ensures { result.heads.entries ≡ [] }
    {
        Heads {
            heads: BTreeMap::new(alloc),
        }
    }

    /// Enters the next entry of the log.
    pub(crate) fn enter(&mut self, entry: LogEntry) -> Result<(), AllocError>
        ensures { OnOk result (IsEntered ⟦<BookName as Ord>⟧.cmp (line_seen entry) self.old.heads self.new.heads) }
    {
        match entry {
            LogEntry::Bookmark { name, to, .. } => self.set(name, to),
            LogEntry::Landing { name, ids, .. } => {
                let head = ids.last().copied();
                self.set(name, head)
            }
            LogEntry::Content { .. }
            | LogEntry::Whole { .. }
            | LogEntry::Changeset { .. }
            | LogEntry::Policy { .. } => Ok(()),
        }
    }

    // The bookmark has this head now, or none.
    fn set(&mut self, name: BookName, head: Option<Id>) -> Result<(), AllocError>
        ensures { OnOk result (Updates ⟦<BookName as Ord>⟧.cmp self.old.heads self.new.heads name head) }
    {
        match head {
            Some(id) => {
                self.heads.insert(name, id)?;
            }
            None => {
                self.heads.remove(&name);
            }
        }
        Ok(())
    }

    /// Sends each head.
    pub(crate) fn send<R: Wait>(&self, rt: &R, ids: &IdsTo) {
        for id in self.heads.values() {
            ids.send(rt, *id);
        }
    }
}
