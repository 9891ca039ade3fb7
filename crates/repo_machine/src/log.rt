//! Pages of the log.
ghost use Rattle.std.specs.Prelude.{◌≡◌, ◌==◌, ◌+◌, ◌<◌, ◌^◌, count_by, length, map, take, drop, IfOk};
ghost use Rattle.std.specs.List.{AllByRecursion};
ghost use Rattle.changeset_model.specs.Changeset.{id_of};
ghost use Rattle.history_model.specs.History.{stored};
ghost use Rattle.reply_model.specs.Log.{log_lines};
ghost use Rattle.changeset_store.specs.Store.{changeset_at};
ghost use Rattle.repo_calls.specs.Calls.{line_seen, lines_seen};
ghost use Rattle.repo_machine.specs.Lines.{record_line, line_at, IsKeptAt, KeptWithin};
ghost use Rattle.repo_machine.specs.Records.{IsWithin};

use crate::machine::Machine;
use crate::records::{Entry, Record};
use changeset_store::ChangesetStore;
use object_id::Id;
use repo_calls::{LogEntry, LogPage};
use repo_path::BookName;
use std::alloc::{AllocError, Global};

/// The most entries of a page.
const PAGE: usize = 100;

impl Machine {
    /// At most 100 stored entries of the log from this number on, and how many there are in all.
    pub fn log(&self, alloc: Global, from: u64) -> Result<LogPage, AllocError>
        ensures entries { IfOk result (λ page. lines_seen page.entries.items ≡ log_lines self.now.history from) }
        ensures total { IfOk result (λ page. page.total ≡ length (stored self.now.history)) }
        ensures fits { IfOk result (λ page. from + length page.entries.items < 2 ^ 64) }
    {
        let page = page_from(self.kept.as_slice(), from);
        let entries = lines_of(&self.changesets, alloc, self.entries.as_slice(), page)?;
        Ok(LogPage {
            entries,
            total: self.stored_length(),
        })
    }
}

// At most 100 places of stored entries, from this number on.
fn page_from(kept: &[usize], from: u64) -> &[usize]
    ensures page { result.now ≡ take PAGE (drop from kept.now) }
    ensures fits { from + length result.now < 2 ^ 64 }
{
    let start = from.min(kept.len() as u64) as usize;
    let count = PAGE.min(kept.len() - start);
    &kept[start..start + count]
}

// What the log tells of the entries at these places.
fn lines_of(
    changesets: &ChangesetStore,
    alloc: Global,
    entries: &[Entry],
    places: &[usize],
) -> Result<Vec<LogEntry>, AllocError>
    requires { AllByRecursion (IsKeptAt (length changesets.now.known) entries.now) places.now }
    ensures { IfOk result (λ lines. lines_seen lines.items ≡ map (line_at changesets.now.known entries.now) places.now) }
{
    let mut lines = Vec::with_capacity(alloc, places.len())?;
    'places: for place in places {
        lines.push(line_of(changesets, alloc, &entries[*place].record)?)?;
    }
    Ok(lines)
}

fn line_of(
    changesets: &ChangesetStore,
    alloc: Global,
    record: &Record,
) -> Result<LogEntry, AllocError>
    requires { KeptWithin (length changesets.now.known) «record».now }
    ensures { IfOk result (λ line. line_seen line ≡ record_line changesets.now.known «record».now) }
{
    match record {
        Record::Content { id, length } => Ok(LogEntry::Content {
            id: *id,
            size: *length as u64,
        }),
        Record::Whole(whole) => Ok(LogEntry::Whole {
            id: whole.id,
            size: whole.length,
            parts: Vec::from_slice(alloc, whole.parts.as_slice())?,
        }),
        Record::Change { number } => Ok(LogEntry::Changeset {
            id: changesets.at(*number).id(),
        }),
        Record::Book(movement) => Ok(LogEntry::Bookmark {
            name: movement.name.copy(alloc)?,
            from: movement.from,
            to: movement.to,
            caller: copied(alloc, &movement.caller)?,
        }),
        Record::Land(landing) => Ok(LogEntry::Landing {
            name: landing.name.copy(alloc)?,
            old: landing.old,
            draft: landing.draft,
            moment: landing.moment,
            ids: ids_of(changesets, alloc, landing.numbers.as_slice())?,
            caller: copied(alloc, &landing.caller)?,
        }),
        Record::Policy(policy) => Ok(LogEntry::Policy {
            caller: policy.caller.copy(alloc)?,
            rules: lines_in(policy.text.as_slice()),
        }),
        Record::Fault { breaking: _ } => unreachable!(),
    }
}

// How many lines end in a text.
fn lines_in(text: &[u8]) -> u64
    ensures { result ≡ count_by (λ b. b == 0x0A) text.now }
{
    text.iter().filter(|b| **b == b'\n').count() as u64
}

// A caller who is told, in memory of its own.
fn copied(alloc: Global, caller: &Option<BookName>) -> Result<Option<BookName>, AllocError>
    ensures { IfOk result (λ copied. copied ≡ caller.now) }
{
    match caller {
        Some(name) => Ok(Some(name.copy(alloc)?)),
        None => Ok(None),
    }
}

// The ids of the changesets of these numbers.
fn ids_of(
    changesets: &ChangesetStore,
    alloc: Global,
    numbers: &[u32],
) -> Result<Vec<Id>, AllocError>
    requires { AllByRecursion (λ n. n < length changesets.now.known) numbers.now }
    ensures { IfOk result (λ ids. ids.items ≡ map id_of (map (changeset_at changesets.now.known) numbers.now)) }
{
    let mut ids = Vec::with_capacity(alloc, numbers.len())?;
    'numbers: for number in numbers {
        ids.push(changesets.at(*number).id())?;
    }
    Ok(ids)
}
