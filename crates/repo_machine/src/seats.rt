//! Seats' numbers.
ghost use Rattle.std.specs.Prelude.{◌≡◌, vec_capacity};
ghost use Rattle.reply_model.specs.Legal.{IsLegal};
ghost use Rattle.repo_machine.specs.Seats.{all_unseated, cleared};

use crate::machine::Machine;
use crate::records::Entry;

impl Machine {
    /// Sets every entry's number of a seat to 0, as if all were read from a file.
    pub fn clear_seats(&mut self)
        ensures header { self.new.header ≡ self.old.header }
        ensures history { self.new.history ≡ cleared self.old.history }
        ensures room { self.new.room ≡ self.old.room }
        ensures legal { IsLegal self.new.header self.new.history }
    {
        unseat(&mut self.entries);
    }
}

// Sets the numbers to 0.
fn unseat(entries: &mut Vec<Entry>)
    ensures items { entries.new.items ≡ all_unseated entries.old.items }
    ensures capacity { vec_capacity entries.new ≡ vec_capacity entries.old }
{
    for entry in entries.iter_mut() {
        entry.who = 0;
    }
}
