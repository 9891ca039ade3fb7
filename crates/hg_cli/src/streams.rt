//! The numbers of the standard streams.
use std::fs::{File, OpenOptions};
use std::io;
use std::os::fd::AsRawFd;
use std::rt::Files;

// Always there, and nothing is kept of what is written to it.
const NULL: &str = "/dev/null";

/// Files that have the numbers of standard streams which were closed, until they are dropped.
#[derive(Drop)]
pub(crate) struct HeldStreams {
    // each is held until all are dropped
    _files: [Option<File>; 3],
}

/// Gives the numbers of those standard streams that are closed to `/dev/null`: otherwise the files that are opened next would
/// get them, and what is written to a stream would be written over such a file. Nothing may have been opened before.
pub(crate) fn hold_streams<R: Files<File = File>>(rt: &R) -> io::Result<HeldStreams> {
    Ok(HeldStreams {
        _files: [hold_next(rt)?, hold_next(rt)?, hold_next(rt)?],
    })
}

// Holds the least number that is free, if it is a standard stream's. The file is open in the other direction than the stream,
// so that a call of the stream fails as that of a closed one.
fn hold_next<R: Files<File = File>>(rt: &R) -> io::Result<Option<File>> {
    let file = File::open(rt, NULL)?;
    match file.as_raw_fd() {
        0 => {
            drop(file);
            Ok(Some(OpenOptions::new().write(true).open(rt, NULL)?))
        }
        1 | 2 => Ok(Some(file)),
        _ => Ok(None),
    }
}
