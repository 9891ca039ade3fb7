//! The repository that follows a server.
ghost use Rattle.std.specs.Prelude.{◌≡◌, ◌≤◌, ℕ, List, false, is_err, IfOk, IsTrue, OnOk};
ghost use Rattle.ports.specs.Faults.{Counts};
ghost use Rattle.history_model.specs.History.{Entry};
ghost use Rattle.bookmark_lock.specs.Opening.{Opening};
ghost use Rattle.reply_model.specs.After.{Replies};
ghost use Rattle.reply_model.specs.Log.{log_lines};
ghost use Rattle.repo_calls.specs.Asking.{is_disk_fault, is_misread, is_unread, stored_answer};
ghost use Rattle.repo_calls.specs.Calls.{call_seen, lines_seen};
ghost use Rattle.follower.specs.Making.{count};
ghost use Rattle.repo_state.specs.State.{after_seal, breaks};

use ports::Failed;
use repo_calls::{Ask, ChangeFault, Granted, LogPage};
use std::alloc::{AllocError, Global};

/// The repository that follows a server, as following it sees it.
pub(crate) trait OwnRepository {
    /// How it was opened, which no call changes.
    ghost opening: { Self → Opening };

    ghost history: { Self → List Entry };

    /// How many of the stored entries are sealed.
    ghost sealed: { Self → ℕ };

    /// Up to which of the stored entries the group under way goes, if its gate was opened. 0 where there is none.
    ghost open_to: { Self → ℕ };

    /// How often its disk failed.
    ghost faults: { Self → ℕ };

    /// How many entries are stored, sealed or waiting.
    fn entries(&self) -> u64
        ensures length { result ≡ count (history self.now) }
        ensures most { sealed self.now ≤ result };

    /// Makes a change, whose entry, if it makes one, waits to be sealed.
    fn make(&mut self, alloc: Global, ask: &Ask) -> Result<Granted, ChangeFault>
        ensures reply { Replies (opening self.old).header (history self.old) 0 (call_seen ask.now) (stored_answer result) (history self.new) }
        ensures other { is_disk_fault result ≡ false }
        ensures honest { IsTrue (opening self.old).honest → is_misread result ≡ false }
        ensures sealed { sealed self.new ≡ sealed self.old }
        ensures opens { open_to self.new ≡ open_to self.old }
        ensures opening { opening self.new ≡ opening self.old }
        ensures faults { Counts (faults self.old) (faults self.new) (is_unread result) };

    /// What the log tells from this number on.
    fn told_from(&mut self, alloc: Global, from: u64) -> Result<LogPage, AllocError>
        ensures page { IfOk result (λ page. lines_seen page.entries.items ≡ log_lines (history self.old) from) }
        ensures history { history self.new ≡ history self.old }
        ensures sealed { sealed self.new ≡ sealed self.old }
        ensures opens { open_to self.new ≡ open_to self.old }
        ensures opening { opening self.new ≡ opening self.old }
        ensures faults { faults self.old ≤ faults self.new };

    /// Seals all that waits, so that the first `upto` entries are sealed. A group under way is ended first.
    fn seal_first(&mut self, upto: u64) -> Result<(), Failed>
        requires { upto ≤ count (history self.old) }
        ensures history { history self.new ≡ after_seal 0 (is_err result) (history self.old) }
        ensures most { sealed self.new ≤ count (history self.old) }
        ensures done { OnOk result (upto ≤ sealed self.new) }
        ensures opens { open_to self.new ≤ open_to self.old }
        ensures opening { opening self.new ≡ opening self.old }
        ensures faults { Counts (faults self.old) (faults self.new) (breaks (is_err result) (history self.old)) };
}
