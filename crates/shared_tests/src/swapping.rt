//! A disk that gives other bytes than were written.
ghost use Rattle.file_disk.specs.Untold.{untold, untold_sound};

use blob_disk::{Disk, Failed, NoFlush, NoPeer};

const ROOM: usize = 512;

// How many bytes the content has whose bytes are swapped.
const SWAPPED: usize = 3;

/// A disk of 512 bytes that never fails. Of reads of three bytes it gives the last byte first.
#[derive(Drop)]
pub(crate) struct Swapping {
    bytes: [u8; ROOM],
    length: usize,
}

impl Swapping {
    pub(crate) fn new() -> Swapping {
        Swapping {
            bytes: [0; ROOM],
            length: 0,
        }
    }
}

impl Disk for Swapping {
    type Flush = NoFlush;

    type Peer = NoPeer;

    ghost meaning = { λ _. untold 0 };

    fn size(&mut self) -> Result<u64, Failed> {
        Ok(self.length as u64)
    }

    fn read_at(&mut self, at: u64, buf: &mut [u8]) -> Result<(), Failed> {
        let mut place = at as usize;
        for byte in buf.iter_mut() {
            *byte = self.bytes.get(place).copied().unwrap_or(0);
            place = place.saturating_add(1);
        }
        if buf.len() == SWAPPED {
            buf.reverse();
        }
        Ok(())
    }

    fn write_at(&mut self, at: u64, bytes: &[u8]) -> Result<(), Failed> {
        let mut place = at as usize;
        for byte in bytes {
            if let Some(kept) = self.bytes.get_mut(place) {
                *kept = *byte;
            }
            place = place.saturating_add(1);
        }
        self.length = self.length.max(place);
        Ok(())
    }

    fn sync(&mut self) -> Result<(), Failed> {
        Ok(())
    }

    fn flush(&mut self) -> NoFlush {
        NoFlush
    }

    fn flushed(&mut self, flush: NoFlush) -> Result<(), Failed> {
        drop(flush);
        self.sync()
    }

    fn peer(&self) -> Option<NoPeer> {
        None
    }

    fn faults(&self) -> u64 {
        0
    }

    fn moment(&self) -> u64 {
        0
    }

    ghost sound = { λ _. untold_sound 0 };
}
