//! A disk whose second handles give what a test says, and which counts what is read by them and by itself.
use blob_disk::{Disk, Failed, Peer};
use std::sync::Arc;
use std::sync::atomic::{AtomicU64, Ordering};

/// The bytes that second handles give, and how often they and the disk itself were asked for some.
#[derive(Drop)]
pub(crate) struct Given {
    bytes: Vec<u8>,
    looks: AtomicU64,
    reads: AtomicU64,
}

impl Given {
    pub(crate) fn new(bytes: Vec<u8>) -> Given {
        Given {
            bytes,
            looks: AtomicU64::new(0),
            reads: AtomicU64::new(0),
        }
    }

    /// How often the handles were asked, and how often the disk.
    pub(crate) fn told(&self) -> (u64, u64) {
        (
            self.looks.load(Ordering::SeqCst),
            self.reads.load(Ordering::SeqCst),
        )
    }

    // Fills a buffer from this place on, as far as there are bytes.
    fn look(&self, at: usize, buf: &mut [u8]) -> bool {
        self.looks.fetch_add(1, Ordering::SeqCst);
        let mut place = at;
        for byte in buf.iter_mut() {
            let Some(given) = self.bytes.get(place) else {
                return false;
            };
            *byte = *given;
            place = place.saturating_add(1);
        }
        true
    }
}

/// A second handle of such a disk.
#[derive(Drop)]
pub(crate) struct GivenPeer {
    given: Arc<Given>,
}

impl Peer for GivenPeer {
    fn look(&self, at: u64, buf: &mut [u8]) -> bool {
        self.given.look(at as usize, buf)
    }
}

/// The disk, over another.
#[derive(Drop)]
pub(crate) struct Peered<D: Disk> {
    disk: D,
    given: Arc<Given>,
}

impl<D: Disk> Peered<D> {
    pub(crate) fn new(disk: D, given: Arc<Given>) -> Peered<D> {
        Peered { disk, given }
    }
}

impl<D: Disk> Disk for Peered<D> {
    type Flush = D::Flush;

    type Peer = GivenPeer;

    ghost meaning = { λ d. D.meaning d.disk };

    fn size(&mut self) -> Result<u64, Failed> {
        self.disk.size()
    }

    fn read_at(&mut self, at: u64, buf: &mut [u8]) -> Result<(), Failed> {
        self.given.reads.fetch_add(1, Ordering::SeqCst);
        self.disk.read_at(at, buf)
    }

    fn write_at(&mut self, at: u64, bytes: &[u8]) -> Result<(), Failed> {
        self.disk.write_at(at, bytes)
    }

    fn sync(&mut self) -> Result<(), Failed> {
        self.disk.sync()
    }

    fn flush(&mut self) -> D::Flush {
        self.disk.flush()
    }

    fn flushed(&mut self, flush: D::Flush) -> Result<(), Failed> {
        self.disk.flushed(flush)
    }

    fn peer(&self) -> Option<GivenPeer> {
        match Arc::try_clone(&self.given) {
            Ok(given) => Some(GivenPeer { given }),
            Err(_) => None,
        }
    }

    fn faults(&self) -> u64 {
        self.disk.faults()
    }

    fn moment(&self) -> u64 {
        self.disk.moment()
    }

    ghost sound = { λ d. D.sound d.disk };
}
