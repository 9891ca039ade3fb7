//! The version of a repository's file.
ghost use Rattle.std.specs.Prelude.{◌≡◌};
ghost use Rattle.bonsai.specs.Versions.{version_view};

use crate::state::RepoState;
use blob_disk::Disk;
use bonsai::Version;

impl<D: Disk> RepoState<D> {
    /// The version of its file.
    pub fn version(&self) -> Version
        ensures { version_view result ≡ self.now.header.version }
    {
        self.machine.version()
    }
}
