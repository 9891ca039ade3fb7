//! Does again what an entry of a server's log tells.
ghost use Rattle.std.specs.Prelude.{◌≡◌, ◌≢◌, ◌↔◌, ◌≤◌, ◌∷◌, [], false, IfOk, IsTrue};
ghost use Rattle.ports.specs.Faults.{Counts, Rose};
ghost use Rattle.reply_model.specs.After.{Replies};
ghost use Rattle.reply_model.specs.Log.{log_lines};
ghost use Rattle.repo_calls.specs.Asking.{is_disk_fault, is_misread, is_unread, stored_answer};
ghost use Rattle.repo_calls.specs.Calls.{line_seen, lines_seen};
ghost use Rattle.follower.specs.Making.{call_of};
ghost use Rattle.follower.specs.Replaying.{IsReplayed};
ghost use Rattle.follower.specs.declared.replayed.Replayed.TheVariants.{DiskFault, Same};

use crate::line_ask::{ask_for, caller_of, parts_of};
use crate::own_repository::OwnRepository;
use crate::replayed::{Replayed, refused_as};
use crate::same_line::is_same_line;
use ports::Failed;
use repo_calls::{ChangeFault, Granted, LogEntry, Refusal};
use std::alloc::{AllocError, Global};

// Makes the entry, which waits to be sealed.
fn make_entry<R: OwnRepository>(
    alloc: Global,
    own: &mut R,
    entry: &LogEntry,
    fetched: &[u8],
) -> Result<Granted, ChangeFault>
    ensures reply { Replies (R.opening own.old).header (R.history own.old) 0 (call_of (line_seen entry.now) fetched.now) (stored_answer result) (R.history own.new) }
    ensures other { is_disk_fault result ≡ false }
    ensures honest { IsTrue (R.opening own.old).honest → is_misread result ≡ false }
    ensures sealed { R.sealed own.new ≡ R.sealed own.old }
    ensures opens { R.open_to own.new ≡ R.open_to own.old }
    ensures opening { R.opening own.new ≡ R.opening own.old }
    ensures faults { Counts (R.faults own.old) (R.faults own.new) (is_unread result) }
{
    let (Ok(caller), Ok(parts)) = (caller_of(alloc, entry), parts_of(alloc, entry)) else {
        return Err(ChangeFault::Refused(Refusal::Memory));
    };
    let ask = ask_for(entry, fetched, &caller, parts.as_slice());
    own.make(alloc, &ask)
}

// Whether these are one entry, of which a log tells the same.
fn is_only(entries: &[LogEntry], entry: &LogEntry) -> bool
    ensures { IsTrue result ↔ (lines_seen entries.now ≡ line_seen entry.now ∷ []) }
{
    entries.len() == 1 && is_same_line(entry, &entries[0])
}

// Whether the own log tells this alone from this number on.
fn is_told<R: OwnRepository>(
    alloc: Global,
    own: &mut R,
    from: u64,
    entry: &LogEntry,
) -> Result<bool, AllocError>
    ensures told { IfOk result (λ told. IsTrue told ↔ (log_lines (R.history own.old) from ≡ line_seen entry.now ∷ [])) }
    ensures history { R.history own.new ≡ R.history own.old }
    ensures sealed { R.sealed own.new ≡ R.sealed own.old }
    ensures opens { R.open_to own.new ≡ R.open_to own.old }
    ensures opening { R.opening own.new ≡ R.opening own.old }
    ensures faults { R.faults own.old ≤ R.faults own.new }
{
    let page = own.told_from(alloc, from)?;
    Ok(is_only(page.entries.as_slice(), entry))
}

/// Makes the entry of which a page tells this, with the bytes that were fetched for it, and seals it. One that differs
/// isn't sealed, so nothing of it comes onto the disk.
pub(crate) fn replay<R: OwnRepository>(
    alloc: Global,
    own: &mut R,
    entry: &LogEntry,
    fetched: &[u8],
) -> Replayed
    ensures replayed { IsReplayed (R.opening own.old) (R.history own.old) (line_seen entry.now) fetched.now (R.history own.new) (R.sealed own.new) result }
    ensures sealed { result ≢ Same → result ≢ DiskFault → R.sealed own.new ≡ R.sealed own.old }
    ensures opens { R.open_to own.new ≤ R.open_to own.old }
    ensures opening { R.opening own.new ≡ R.opening own.old }
    ensures faults { R.faults own.old ≤ R.faults own.new }
    ensures cause { result ≡ DiskFault → Rose (R.faults own.old) (R.faults own.new) }
{
    let number = own.entries();
    match make_entry(alloc, own, entry, fetched) {
        Ok(_) => {}
        Err(fault) => return refused_as(&fault),
    }
    match is_told(alloc, own, number, entry) {
        Err(AllocError) => return Replayed::Memory,
        Ok(false) => return Replayed::Differs,
        Ok(true) => {}
    }
    let upto = own.entries();
    match own.seal_first(upto) {
        Ok(()) => Replayed::Same,
        Err(Failed) => Replayed::DiskFault,
    }
}
