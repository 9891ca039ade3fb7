//! The log, page by page, whose changesets are told to derivers.
ghost use Rattle.std.specs.Prelude.{◌≡◌, ◌≤◌, IfOk, List};
ghost use Rattle.reply_model.specs.Reply.{LogFrom};
ghost use Rattle.reply_model.specs.After.{Answer, Looks};
ghost use Rattle.repo_calls.specs.Calls.{line_seen};
ghost use Rattle.derive_pool.specs.Pages.{ReadsPages, next_after, told_id};

use crate::channel::IdsTo;
use crate::heads::Heads;
use object_id::Id;
use repo_calls::{LogEntry, LogPage, Question, Seat, Seen};
use std::alloc::{AllocError, Global};
use std::marker::Model;
use std::sync::Wait;

/// What tells derivers of the changesets in the log. Contracts see the number of the entry that its next
/// page begins with.
#[derive(Clone, Drop)]
pub struct Feed {
    ids: IdsTo,
    next: u64,
    // whether the heads of bookmarks are still to be told
    begins: bool,
}

impl Model for Feed {
    ghost use Rattle.std.specs.Prelude.{ℕ};

    ghost Value = { ℕ };

    ghost view = { λ f. f.next };
}

impl Feed {
    /// A feed that first tells the heads of bookmarks, and whose first page begins with the entry of this number.
    pub fn new(ids: IdsTo, next: u64) -> Self
        ensures { result ≡ next }
    {
        Feed {
            ids,
            next,
            begins: true,
        }
    }

    /// A feed like this one, which tells the heads in its place.
    pub fn share(&mut self) -> Result<Feed, AllocError>
        ensures stays { self.new ≡ self.old }
        ensures same { IfOk result (λ feed. feed ≡ self.old) }
    {
        let shared = Feed {
            ids: self.ids.clone()?,
            next: self.next,
            begins: self.begins,
        };
        self.begins = false;
        Ok(shared)
    }

    /// Reads the whole log at this seat, and sends the head that each bookmark has by it, unless that was done. Where a page
    /// is refused it goes by those before it, and where there is no memory it sends none.
    pub fn tell_heads<R: Wait, S: Seat>(&mut self, rt: &R, alloc: Global, seat: &mut S)
        ensures stays { self.new ≡ self.old }
        ensures seals { S.sealed seat.old ≤ S.sealed seat.new }
        ensures home { S.home seat.new ≡ S.home seat.old }
    {
        if self.begins {
            self.begins = false;
            if let Ok(heads) = read_heads(alloc, seat) {
                heads.send(rt, &self.ids);
            }
        }
    }

    /// Reads the log at this seat from where it was left to its end, page by page, and sends its changesets to
    /// the derivers. A page that is refused ends it; it is read the next time.
    pub fn read_pages<R: Wait, S: Seat>(&mut self, rt: &R, alloc: Global, seat: &mut S)
        ensures pages { (answers : List Answer) × ReadsPages (S.replies (S.home seat.old) 0) (S.header seat.old) (S.number seat.old) (S.front seat.old) self.old answers (S.front seat.new) self.new }
        ensures seals { S.sealed seat.old ≤ S.sealed seat.new }
        ensures home { S.home seat.new ≡ S.home seat.old }
    {
        let mut next = self.next;
        for _ in 0..u64::MAX {
            match read_page(alloc, seat, &mut next) {
                Some(page) => send_page(rt, &self.ids, &page),
                None => break,
            }
        }
        self.next = next;
    }
}

// The page of the log that begins with the entry of this number, which becomes that of the page after it. `None` where it is
// refused or has no entry.
fn read_page<S: Seat>(alloc: Global, seat: &mut S, next: &mut u64) -> Option<LogPage>
    ensures page { (answer : Answer) × S.replies (S.home seat.old) 0 (S.header seat.old) (S.front seat.old) (S.number seat.old) (Looks (LogFrom next.old)) answer (S.front seat.new) × (next.new ≡ next_after next.old answer) }
    ensures header { S.header seat.new ≡ S.header seat.old }
    ensures number { S.number seat.new ≡ S.number seat.old }
    ensures seals { S.sealed seat.old ≤ S.sealed seat.new }
    ensures home { S.home seat.new ≡ S.home seat.old }
{
    match seat.look(alloc, &Question::Log(*next)) {
        Ok(Seen::Log(page)) => {
            *next = next.saturating_add(page.entries.len() as u64);
            if page.entries.is_empty() {
                None
            } else {
                Some(page)
            }
        }
        _ => None,
    }
}

// The heads that bookmarks have by the log.
fn read_heads<S: Seat>(alloc: Global, seat: &mut S) -> Result<Heads, AllocError>
    ensures seals { S.sealed seat.old ≤ S.sealed seat.new }
    ensures home { S.home seat.new ≡ S.home seat.old }
{
    let mut heads = Heads::new(alloc);
    let mut next = 0;
    for _ in 0..u64::MAX {
        let Some(page) = read_page(alloc, seat, &mut next) else {
            break;
        };
        enter_page(&mut heads, page)?;
    }
    Ok(heads)
}

fn enter_page(heads: &mut Heads, page: LogPage) -> Result<(), AllocError> {
    for entry in page.entries {
        heads.enter(entry)?;
    }
    Ok(())
}

/// Sends the changesets that the entries of a page tell of.
pub fn send_page<R: Wait>(rt: &R, ids: &IdsTo, page: &LogPage) {
    for id in page.entries.iter().filter_map(told_id) {
        ids.send(rt, id);
    }
}

// The changeset that an entry tells of: an uploaded one, or the last of a landed stack, whose chain has the others.
fn told_id(entry: &LogEntry) -> Option<Id>
    ensures { result ≡ told_id (line_seen entry.now) }
{
    match entry {
        LogEntry::Changeset { id } => Some(*id),
        LogEntry::Landing { ids, .. } => ids.last().copied(),
        LogEntry::Content { .. }
        | LogEntry::Whole { .. }
        | LogEntry::Bookmark { .. }
        | LogEntry::Policy { .. } => None,
    }
}
