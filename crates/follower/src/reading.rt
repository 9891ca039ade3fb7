//! What is asked for a page of the log and for its entries.
ghost use Rattle.std.specs.Prelude.{◌≡◌, ◌≤◌, ℕ, List, Some, Err};
ghost use Rattle.ports.specs.Faults.{Rose};
ghost use Rattle.repo_calls.specs.Calls.{line_seen};
ghost use Rattle.follower.specs.Hearing.{HearsFetched, HearsPage, TellsPage, bytes_fetched, heard_instead};
ghost use Rattle.follower.specs.Receiving.{IsAhead, IsReady};
ghost use Rattle.follower.specs.Wanting.{wanted_of};
ghost use Rattle.follower.specs.declared.inbox.HearFault.TheVariants.{LinkFault};

use crate::asking::ask;
use crate::inbox::{HearFault, Inbox, Received};
use crate::wanted::Wanted;
use page_reader::{PageFault, read_page};
use ports::Link;
use repo_calls::{LogEntry, LogPage};
use std::alloc::Global;

// What it means that there is no page in a reply.
fn heard_instead(fault: PageFault) -> HearFault
    ensures { result ≡ heard_instead fault }
{
    match fault {
        PageFault::BadJson | PageFault::BadPart | PageFault::BadCount | PageFault::OtherText =>
            HearFault::BadReply,
        PageFault::Memory => HearFault::Memory,
    }
}

// The page that a reply tells.
fn page_in(alloc: Global, from: u64, received: &Received) -> Result<LogPage, HearFault>
    ensures { TellsPage from received.now.body.items result }
{
    match read_page(alloc, from, received.body.as_slice()) {
        Ok(page) => Ok(page),
        Err(fault) => Err(heard_instead(fault)),
    }
}

/// Asks for the page of the log from this number on.
pub(crate) fn ask_page<L: Link>(
    alloc: Global,
    link: &mut L,
    inbox: &mut Inbox,
    from: u64,
) -> Result<LogPage, HearFault>
    requires ready { IsReady inbox.old }
    ensures told { (bytes : List ℕ) → IsAhead inbox.old.held.items (L.rest link.old) bytes → HearsPage from bytes inbox.new.held.items (L.rest link.new) result }
    ensures ready { IsReady inbox.new }
    ensures faults { L.faults link.old ≤ L.faults link.new }
    ensures cause { result ≡ Err LinkFault → Rose (L.faults link.old) (L.faults link.new) }
{
    let received = ask(alloc, link, inbox, &Wanted::Page(from))?;
    page_in(alloc, from, &received)
}

// What has to be asked for an entry.
fn wanted_for(number: u64, entry: &LogEntry) -> Option<Wanted>
    ensures { result ≡ wanted_of number (line_seen entry.now) }
{
    match entry {
        LogEntry::Content { id, .. } => Some(Wanted::Content(*id)),
        LogEntry::Changeset { id } => Some(Wanted::Changeset(*id)),
        LogEntry::Policy { .. } => Some(Wanted::Policy(number)),
        LogEntry::Whole { .. } | LogEntry::Bookmark { .. } | LogEntry::Landing { .. } => None,
    }
}

/// What was asked for an entry, if something had to be.
#[derive(Drop)]
pub(crate) struct Fetched {
    received: Option<Received>,
}

impl Fetched {
    /// The bytes that were asked for.
    pub(crate) fn bytes(&self) -> &[u8]
        ensures { result.now ≡ bytes_fetched self.now }
    {
        match &self.received {
            Some(received) => received.body.as_slice(),
            None => &[],
        }
    }
}

// Asks for this.
fn fetch_wanted<L: Link>(
    alloc: Global,
    link: &mut L,
    inbox: &mut Inbox,
    wanted: &Wanted,
) -> Result<Fetched, HearFault>
    requires ready { IsReady inbox.old }
    ensures told { (bytes : List ℕ) → IsAhead inbox.old.held.items (L.rest link.old) bytes → HearsFetched (Some wanted.now) bytes inbox.new.held.items (L.rest link.new) result }
    ensures ready { IsReady inbox.new }
    ensures faults { L.faults link.old ≤ L.faults link.new }
    ensures cause { result ≡ Err LinkFault → Rose (L.faults link.old) (L.faults link.new) }
{
    let received = ask(alloc, link, inbox, wanted)?;
    Ok(Fetched {
        received: Some(received),
    })
}

/// Asks for what the entry of this number needs.
pub(crate) fn fetch<L: Link>(
    alloc: Global,
    link: &mut L,
    inbox: &mut Inbox,
    number: u64,
    entry: &LogEntry,
) -> Result<Fetched, HearFault>
    requires ready { IsReady inbox.old }
    ensures told { (bytes : List ℕ) → IsAhead inbox.old.held.items (L.rest link.old) bytes → HearsFetched (wanted_of number (line_seen entry.now)) bytes inbox.new.held.items (L.rest link.new) result }
    ensures ready { IsReady inbox.new }
    ensures faults { L.faults link.old ≤ L.faults link.new }
    ensures cause { result ≡ Err LinkFault → Rose (L.faults link.old) (L.faults link.new) }
{
    match wanted_for(number, entry) {
        None => Ok(Fetched { received: None }),
        Some(wanted) => fetch_wanted(alloc, link, inbox, &wanted),
    }
}
