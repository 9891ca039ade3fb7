//! Opens real files.
ghost use Rattle.std.specs.Prelude.{◌≡◌, None, IfOk};
ghost use Rattle.file_disk.specs.Untold.{untold};

use crate::disk::FileDisk;
use crate::tally::Tally;
use crate::telling::tell;
use blob_disk::Disk;
use ports::{Failed, Opener};
use std::fs::{File, OpenOptions};
use std::io;
use std::io::Eprint;
use std::rt::Files;

/// Opens files by their paths, and makes one only where that is asked for. A file that is open elsewhere, in this program or
/// another, fails to open, and so does one that gets the number of a standard stream. It counts its failures, says the cause of
/// each in a line on standard error, and tells nothing of the files.
#[derive(Drop)]
pub struct FileOpener<R> {
    rt: R,
    calls: Tally,
}

impl<R: Files<File = File> + Eprint + AllocGlobal + Copy> FileOpener<R> {
    /// An opener of this runtime's files. No call has failed.
    pub fn new(rt: R) -> Self
        ensures { ⟦<Self as Opener<FileDisk<R>>>⟧.faults result ≡ 0 }
    {
        FileOpener {
            rt,
            calls: Tally::new(),
        }
    }
}

impl<R: Files<File = File> + Eprint + AllocGlobal + Copy> Opener<FileDisk<R>> for FileOpener<R> {
    ghost faults = { λ o. o.calls.faults };

    ghost shelf = { λ o. None };

    fn open(&mut self, name: &str, create: bool) -> Result<FileDisk<R>, Failed> {
        match open_disk(self.rt, name, create) {
            Ok(disk) => Ok(disk),
            Err(error) => {
                tell(&self.rt, name, &error);
                self.calls.rise();
                Err(Failed)
            }
        }
    }
}

// A disk over the file.
fn open_disk<R: Files<File = File> + Eprint + AllocGlobal + Copy>(
    rt: R,
    name: &str,
    create: bool,
) -> io::Result<FileDisk<R>>
    ensures { IfOk result (λ disk. ⟦<FileDisk<R> as Disk>⟧.meaning disk ≡ untold 0) }
{
    let path = String::from_str(rt.alloc(), name)?;
    let file = open_alone(&rt, name, create)?;
    FileDisk::new(rt, rt.alloc(), path, file)
}

// The file with a lock that no other open of it shares. The lock goes when the file is closed, so two programs never write one
// repository.
fn open_alone<R: Files<File = File>>(rt: &R, name: &str, create: bool) -> io::Result<File> {
    let file = OpenOptions::new()
        .read(true)
        .write(true)
        .create(create)
        .open(rt, name)?;
    file.try_lock()?;
    Ok(file)
}
