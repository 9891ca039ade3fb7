//! A disk over an open file.
ghost use Rattle.std.specs.Prelude.{◌≡◌, Ok, true, IfOk, IsErr, OnOk, is_err};
ghost use Rattle.std.specs.Arc.{arc_value};
ghost use Rattle.ports.specs.Faults.{Counts};
ghost use Rattle.file_disk.specs.Apart.{IsApart};
ghost use Rattle.file_disk.specs.Came.{is_failed};
ghost use Rattle.file_disk.specs.Untold.{untold, untold_sound};

use crate::flush::{Came, FileFlush};
use crate::peer::FilePeer;
use crate::tally::Tally;
use crate::telling::{tell, tell_last};
use blob_disk::{Disk, Failed};
use std::alloc::Global;
use std::fs::File;
use std::io;
use std::io::{Eprint, ErrorKind};
use std::os::fd::AsRawFd;
use std::os::unix::fs::FileExt;
use std::sync::Arc;

// The greatest number that a standard stream has: standard error's.
const LAST_STREAM: i32 = 2;

/// An open file, with the count of the calls that failed, each of which says its cause in a line on standard error. It is none
/// of the three standard streams, so that nothing that the program says is written over it. What it holds isn't told, so
/// none of its contents is promised.
#[derive(Drop)]
pub struct FileDisk<R> {
    rt: R,
    path: String,
    file: Arc<File>,
    // how many writes were asked for
    writes: u64,
    calls: Tally,
    ghost apart: { IsApart (arc_value file) },
}

// The file in memory that its syncs and readers elsewhere share.
fn shared(alloc: Global, file: File) -> io::Result<Arc<File>>
    ensures { IfOk result (λ arc. arc_value arc ≡ file) }
{
    match Arc::new(alloc, file) {
        Ok(arc) => Ok(arc),
        Err(_) => Err(io::Error::from(ErrorKind::OutOfMemory)),
    }
}

impl<R: Eprint + Drop> FileDisk<R> {
    /// A disk over the file at this path. No call has failed. An error says that the file stands in place of a standard stream,
    /// or that no memory was left.
    pub(crate) fn new(rt: R, alloc: Global, path: String, file: File) -> io::Result<Self>
        ensures { IfOk result (λ disk. ⟦<Self as Disk>⟧.meaning disk ≡ untold 0) }
    {
        if file.as_raw_fd() <= LAST_STREAM {
            return Err(io::Error::new(ErrorKind::Other, "stands in place of a standard stream"));
        }
        Ok(FileDisk {
            rt,
            path,
            file: shared(alloc, file)?,
            writes: 0,
            calls: Tally::new(),
        })
    }

    // Counts a call that failed, says why, and passes on what one gave that was done.
    fn count<T>(&mut self, answer: io::Result<T>) -> Result<T, Failed>
        ensures given { IfOk result (λ x. answer ≡ Ok x) }
        ensures faults { Counts self.old.calls.faults self.new.calls.faults (is_err result) }
        ensures done { OnOk result (self.new.calls.faults ≡ self.old.calls.faults) }
    {
        match answer {
            Ok(given) => Ok(given),
            Err(error) => {
                tell(&self.rt, self.path.as_str(), &error);
                self.calls.rise();
                Err(Failed)
            }
        }
    }

    // The same of a call that stores.
    fn count_stored(&mut self, answer: io::Result<()>) -> Result<(), Failed>
        ensures faults { Counts self.old.calls.faults self.new.calls.faults (is_err result) }
        ensures done { OnOk result (self.new.calls.faults ≡ self.old.calls.faults) }
        ensures same { is_err result ≡ is_err answer }
    {
        match answer {
            Ok(()) => Ok(()),
            Err(error) => {
                tell_last(&self.rt, self.path.as_str(), &error);
                self.calls.rise();
                Err(Failed)
            }
        }
    }

    // An `fdatasync` of the file.
    fn sync_file(&mut self) -> Result<(), Failed>
        ensures faults { Counts self.old.calls.faults self.new.calls.faults (is_err result) }
        ensures done { OnOk result (self.new.calls.faults ≡ self.old.calls.faults) }
    {
        let synced = self.file.sync_data();
        self.count_stored(synced)
    }

    // The answer to a sync that was brought back, of which this came. It is made here where it wasn't made.
    fn answer(&mut self, came: Came) -> Result<(), Failed>
        ensures faults { Counts self.old.calls.faults self.new.calls.faults (is_err result) }
        ensures done { OnOk result (self.new.calls.faults ≡ self.old.calls.faults) }
        ensures failed { is_failed came ≡ true → IsErr result }
    {
        match came {
            Came::Done => Ok(()),
            // It isn't made again: the system tells of a lost write once, and would call the next sync done.
            Came::Failed(error) => self.count_stored(Err(error)),
            Came::NotMade => self.sync_file(),
        }
    }
}

impl<R: Eprint + Drop> Disk for FileDisk<R> {
    type Flush = FileFlush;

    type Peer = FilePeer;

    ghost meaning = { λ d. untold d.calls.faults };

    ghost sound = { λ d. untold_sound d.calls.faults };

    fn size(&mut self) -> Result<u64, Failed> {
        let asked = self.file.metadata();
        let metadata = self.count(asked)?;
        Ok(metadata.len())
    }

    fn read_at(&mut self, at: u64, buf: &mut [u8]) -> Result<(), Failed> {
        let read = self.file.read_exact_at(buf, at);
        self.count(read)
    }

    fn write_at(&mut self, at: u64, bytes: &[u8]) -> Result<(), Failed> {
        self.writes = self.writes.saturating_add(1);
        let written = self.file.write_all_at(bytes, at);
        self.count_stored(written)
    }

    /// An `fdatasync` of the file: its bytes, and the length that is needed to read them.
    fn sync(&mut self) -> Result<(), Failed> {
        self.sync_file()
    }

    fn flush(&mut self) -> FileFlush {
        FileFlush::new(&self.file, self.writes)
    }

    fn flushed(&mut self, flush: FileFlush) -> Result<(), Failed> {
        let came = flush.came_of(&self.file, self.writes);
        self.answer(came)
    }

    fn peer(&self) -> Option<FilePeer> {
        FilePeer::new(&self.file)
    }

    fn faults(&self) -> u64 {
        self.calls.faults()
    }

    fn moment(&self) -> u64 {
        0
    }
}
