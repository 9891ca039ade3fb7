//! How much a repository has.
ghost use Rattle.std.specs.Prelude.{◌≡◌};
ghost use Rattle.repo_machine.specs.Counting.{counts_of};

use crate::state::RepoState;
use blob_disk::Disk;
use repo_machine::Counts;

impl<D: Disk> RepoState<D> {
    /// How much the repository has, as its history tells. It goes through all entries and bookmarks, and doesn't ask the
    /// disk.
    pub fn counts(&self) -> Counts
        ensures { result ≡ counts_of self.now.history }
    {
        self.machine.counts()
    }
}
