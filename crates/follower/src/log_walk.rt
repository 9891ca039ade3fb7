//! Follows a server to the end of its log.
ghost use Rattle.std.specs.Prelude.{◌≡◌, ◌≢◌, ◌≤◌, [], Some};
ghost use Rattle.ports.specs.Faults.{Rose};
ghost use Rattle.repo_calls.specs.Calls.{line_seen, lines_seen};
ghost use Rattle.follower.specs.Following.{IsFollowed};
ghost use Rattle.follower.specs.Receiving.{IsReady};
ghost use Rattle.follower.specs.Walking.{GoesInside, GoesOn, GoesOver, heard_end, page_end, replayed_end};
ghost use Rattle.follower.specs.declared.followed.FollowEnd.TheVariants as ends;

use crate::followed::FollowEnd;
use crate::inbox::{HearFault, Inbox};
use crate::own_repository::OwnRepository;
use crate::reading::{ask_page, fetch};
use crate::replay::replay;
use crate::replayed::Replayed;
use ports::Link;
use repo_calls::LogEntry;
use std::alloc::{AllocError, Global};

// How following ends where nothing was heard for the entry of this number.
fn heard_end(fault: HearFault, number: u64) -> FollowEnd
    ensures { result ≡ heard_end number fault }
{
    match fault {
        HearFault::LinkFault => FollowEnd::LinkFault,
        HearFault::BadReply => FollowEnd::BadReply { number },
        HearFault::Memory => FollowEnd::Memory,
    }
}

// How following ends at the entry of this number, unless it goes on.
fn replayed_end(replayed: Replayed, number: u64) -> Option<FollowEnd>
    ensures { result ≡ replayed_end number replayed }
{
    match replayed {
        Replayed::Same => None,
        Replayed::Differs => Some(FollowEnd::Differs { number }),
        Replayed::Full => Some(FollowEnd::Full { number }),
        Replayed::DiskFault => Some(FollowEnd::DiskFault),
        Replayed::Memory => Some(FollowEnd::Memory),
    }
}

// How following ends at a page without entries, where so many are stored.
fn page_end(total: u64, number: u64) -> FollowEnd
    ensures { result ≡ page_end number total }
{
    if total == number {
        FollowEnd::Same
    } else {
        FollowEnd::Differs { number: total }
    }
}

// Makes the entry of which a page tells this, or comes to the end.
fn follow_entry<R: OwnRepository, L: Link>(
    alloc: Global,
    own: &mut R,
    link: &mut L,
    inbox: &mut Inbox,
    entry: &LogEntry,
) -> Option<FollowEnd>
    requires ready { IsReady inbox.old }
    ensures goes { GoesOver (R.opening own.old) (R.history own.old) (R.sealed own.old) (line_seen entry.now) inbox.old.held.items (L.rest link.old) (R.history own.new) (R.sealed own.new) inbox.new.held.items (L.rest link.new) result }
    ensures ready { IsReady inbox.new }
    ensures opens { R.open_to own.new ≤ R.open_to own.old }
    ensures opening { R.opening own.new ≡ R.opening own.old }
    ensures link_faults { L.faults link.old ≤ L.faults link.new }
    ensures link_cause { result ≡ Some ends.LinkFault → Rose (L.faults link.old) (L.faults link.new) }
    ensures disk_faults { R.faults own.old ≤ R.faults own.new }
    ensures disk_cause { result ≡ Some ends.DiskFault → Rose (R.faults own.old) (R.faults own.new) }
    ensures version { result ≢ Some ends.OldFormat }
{
    let number = own.entries();
    match fetch(alloc, link, inbox, number, entry) {
        Ok(fetched) => {
            let replayed = replay(alloc, own, entry, fetched.bytes());
            replayed_end(replayed, number)
        }
        Err(fault) => Some(heard_end(fault, number)),
    }
}

// Makes the entries of a page in order, or comes to the end.
fn follow_page<R: OwnRepository, L: Link>(
    alloc: Global,
    own: &mut R,
    link: &mut L,
    inbox: &mut Inbox,
    entries: &[LogEntry],
) -> Option<FollowEnd>
    requires ready { IsReady inbox.old }
    ensures goes { GoesInside (R.opening own.old) (R.history own.old) (R.sealed own.old) (lines_seen entries.now) inbox.old.held.items (L.rest link.old) (R.history own.new) (R.sealed own.new) inbox.new.held.items (L.rest link.new) result }
    ensures ready { IsReady inbox.new }
    ensures opens { R.open_to own.new ≤ R.open_to own.old }
    ensures opening { R.opening own.new ≡ R.opening own.old }
    ensures link_faults { L.faults link.old ≤ L.faults link.new }
    ensures link_cause { result ≡ Some ends.LinkFault → Rose (L.faults link.old) (L.faults link.new) }
    ensures disk_faults { R.faults own.old ≤ R.faults own.new }
    ensures disk_cause { result ≡ Some ends.DiskFault → Rose (R.faults own.old) (R.faults own.new) }
    ensures version { result ≢ Some ends.OldFormat }
{
    'entries: for entry in entries {
        match follow_entry(alloc, own, link, inbox, entry) {
            None => {}
            Some(end) => return Some(end),
        }
    }
    None
}

// Asks for the next page and makes its entries, or comes to the end.
fn turn<R: OwnRepository, L: Link>(
    alloc: Global,
    own: &mut R,
    link: &mut L,
    inbox: &mut Inbox,
) -> Option<FollowEnd>
    requires ready { IsReady inbox.old }
    ensures goes { GoesOn (R.opening own.old) (R.history own.old) (R.sealed own.old) inbox.old.held.items (L.rest link.old) (R.history own.new) (R.sealed own.new) inbox.new.held.items (L.rest link.new) result }
    ensures ready { IsReady inbox.new }
    ensures opens { R.open_to own.new ≤ R.open_to own.old }
    ensures opening { R.opening own.new ≡ R.opening own.old }
    ensures link_faults { L.faults link.old ≤ L.faults link.new }
    ensures link_cause { result ≡ Some ends.LinkFault → Rose (L.faults link.old) (L.faults link.new) }
    ensures disk_faults { R.faults own.old ≤ R.faults own.new }
    ensures disk_cause { result ≡ Some ends.DiskFault → Rose (R.faults own.old) (R.faults own.new) }
    ensures version { result ≢ Some ends.OldFormat }
{
    let number = own.entries();
    match ask_page(alloc, link, inbox, number) {
        Ok(page) if page.entries.is_empty() => Some(page_end(page.total, number)),
        Ok(page) => follow_page(alloc, own, link, inbox, page.entries.as_slice()),
        Err(fault) => Some(heard_end(fault, number)),
    }
}

// Asks for page after page and makes their entries, to the end. Each page takes room of the file, so there is an end.
fn follow_pages<R: OwnRepository, L: Link>(
    alloc: Global,
    own: &mut R,
    link: &mut L,
    inbox: Inbox,
) -> FollowEnd
    requires empty { inbox.held.items ≡ [] }
    requires ready { IsReady inbox }
    ensures followed { IsFollowed (R.opening own.old) (R.history own.old) (R.sealed own.old) [] [] (L.rest link.old) (R.history own.new) (R.sealed own.new) result }
    ensures opens { R.open_to own.new ≤ R.open_to own.old }
    ensures opening { R.opening own.new ≡ R.opening own.old }
    ensures link_faults { L.faults link.old ≤ L.faults link.new }
    ensures link_cause { result ≡ ends.LinkFault → Rose (L.faults link.old) (L.faults link.new) }
    ensures disk_faults { R.faults own.old ≤ R.faults own.new }
    ensures disk_cause { result ≡ ends.DiskFault → Rose (R.faults own.old) (R.faults own.new) }
    ensures version { result ≢ ends.OldFormat }
{
    let mut inbox = inbox;
    'pages: loop {
        match turn(alloc, own, link, &mut inbox) {
            None => {}
            Some(end) => return end,
        }
    }
}

/// Follows a server over a link to the end of its log.
pub(crate) fn follow_own<R: OwnRepository, L: Link>(
    alloc: Global,
    own: &mut R,
    link: &mut L,
) -> FollowEnd
    ensures followed { IsFollowed (R.opening own.old) (R.history own.old) (R.sealed own.old) [] [] (L.rest link.old) (R.history own.new) (R.sealed own.new) result }
    ensures opens { R.open_to own.new ≤ R.open_to own.old }
    ensures opening { R.opening own.new ≡ R.opening own.old }
    ensures link_faults { L.faults link.old ≤ L.faults link.new }
    ensures link_cause { result ≡ ends.LinkFault → Rose (L.faults link.old) (L.faults link.new) }
    ensures disk_faults { R.faults own.old ≤ R.faults own.new }
    ensures disk_cause { result ≡ ends.DiskFault → Rose (R.faults own.old) (R.faults own.new) }
    ensures version { result ≢ ends.OldFormat }
{
    // What is sealed is stored.
    let _entries = own.entries();
    match Inbox::new(alloc) {
        Ok(inbox) => follow_pages(alloc, own, link, inbox),
        Err(AllocError) => FollowEnd::Memory,
    }
}
