//! A sync of a file that is made while its disk is used.

ghost use Rattle.std.specs.Prelude.{◌≡◌, true};
ghost use Rattle.file_disk.specs.Came.{has_failed, is_failed};

use blob_disk::Flush;
use std::fs::File;
use std::io;
use std::os::fd::AsRawFd;
use std::sync::Arc;

/// What came of a sync.
#[derive(Drop)]
pub(crate) enum Came {
    NotMade,
    Done,
    Failed(io::Error),
}

/// An `fdatasync` of a file, of all that was written when it was asked for.
#[derive(Drop)]
pub struct FileFlush {
    // none where the file couldn't be shared
    file: Option<Arc<File>>,
    // how many writes of the disk it is behind
    writes: u64,
    came: Came,
}

impl FileFlush {
    /// One that isn't made yet, of a file to which so many writes were made.
    pub(crate) fn new(file: &Arc<File>, writes: u64) -> Self {
        FileFlush {
            file: Arc::try_clone(file).ok(),
            writes,
            came: Came::NotMade,
        }
    }

    /// What came of it for a disk over this file, to which so many writes were made by now. One that was done counts only where
    /// it is of this file and none was made since. One that failed has failed, whatever came behind it.
    pub(crate) fn came_of(self, file: &Arc<File>, writes: u64) -> Came
        ensures { is_failed result ≡ has_failed self }
    {
        let FileFlush {
            file: flushed,
            writes: behind,
            came,
        } = self;
        match came {
            Came::Failed(error) => Came::Failed(error),
            Came::Done if behind == writes && is_of(&flushed, file) => Came::Done,
            Came::Done | Came::NotMade => Came::NotMade,
        }
    }
}

impl Flush for FileFlush {
    /// One that failed isn't made again.
    fn run(&mut self)
        ensures { has_failed self.old ≡ true → has_failed self.new ≡ true }
    {
        if let Came::Failed(_) = self.came {
            return;
        }
        if let Some(file) = &self.file {
            self.came = match file.sync_data() {
                Ok(()) => Came::Done,
                Err(error) => Came::Failed(error),
            };
        }
    }
}

// It shares this file: while it does, no other has the number.
fn is_of(flushed: &Option<Arc<File>>, file: &Arc<File>) -> bool {
    match flushed {
        Some(flushed) => flushed.as_raw_fd() == file.as_raw_fd(),
        None => false,
    }
}
