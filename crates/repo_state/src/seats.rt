//! Seats' numbers.
ghost use Rattle.std.specs.Prelude.{◌≡◌};
ghost use Rattle.repo_machine.specs.Seats.{cleared};
ghost use Rattle.repo_state.specs.State.{IsSound, LeavesNow, reach};

use crate::state::RepoState;
use blob_disk::Disk;

impl<D: Disk> RepoState<D> {
    /// Sets every entry's number of a seat to 0, as if all were read from the file. The disk isn't asked.
    pub fn clear_seats(&mut self)
        ensures header { self.new.header ≡ self.old.header }
        ensures history { self.new.history ≡ cleared self.old.history }
        ensures disk { self.new.disk ≡ self.old.disk }
        ensures opening { self.new.opening ≡ self.old.opening }
        ensures table { self.new.table ≡ self.old.table }
        ensures sealed { self.new.sealed ≡ self.old.sealed }
        ensures sound { IsSound self.new.opening self.new.history self.new.sealed (reach self.new) self.new.disk }
        ensures left { self.new.left ≡ self.old.left }
        ensures leaves_now { LeavesNow self.new }
    {
        self.machine.clear_seats();
    }
}
