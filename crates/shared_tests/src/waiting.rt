//! A disk over another, of which the first sync that is made elsewhere runs until others were seen to go on.

use blob_disk::{Disk, Failed, Flush, NoPeer};
use std::sync::Arc;
use std::sync::atomic::{AtomicU64, Ordering};
use std::thread;

/// How often it is looked before one gives up.
pub(crate) const MOST_TURNS: u32 = 1_000_000;

/// What came while a sync ran.
#[derive(Drop)]
pub(crate) struct Meanwhile {
    begun: AtomicU64,
    seen: AtomicU64,
    gave_up: AtomicU64,
}

impl Meanwhile {
    pub(crate) fn new() -> Meanwhile {
        Meanwhile {
            begun: AtomicU64::new(0),
            seen: AtomicU64::new(0),
            gave_up: AtomicU64::new(0),
        }
    }

    /// Waits until the first sync runs.
    pub(crate) fn wait_for_sync(&self) {
        self.wait_for(&self.begun)
    }

    /// Others were seen to go on.
    pub(crate) fn see(&self) {
        self.seen.fetch_add(1, Ordering::SeqCst);
    }

    /// How many syncs were run, and how many waits were given up.
    pub(crate) fn told(&self) -> (u64, u64) {
        (
            self.begun.load(Ordering::SeqCst),
            self.gave_up.load(Ordering::SeqCst),
        )
    }

    // The first sync runs until others were seen to go on.
    fn sync(&self) {
        if self.begun.fetch_add(1, Ordering::SeqCst) == 0 {
            self.wait_for(&self.seen)
        }
    }

    fn wait_for(&self, count: &AtomicU64) {
        for _ in 0..MOST_TURNS {
            if count.load(Ordering::SeqCst) > 0 {
                return;
            }
            thread::yield_now();
        }
        self.gave_up.fetch_add(1, Ordering::SeqCst);
    }
}

/// A sync of such a disk. Where no share of what is told was to be had it doesn't wait.
#[derive(Drop)]
pub(crate) struct WaitingFlush {
    meanwhile: Option<Arc<Meanwhile>>,
}

impl Flush for WaitingFlush {
    fn run(&mut self) {
        if let Some(meanwhile) = &self.meanwhile {
            meanwhile.sync();
        }
    }
}

/// The disk.
#[derive(Drop)]
pub(crate) struct Waiting<D: Disk> {
    disk: D,
    meanwhile: Arc<Meanwhile>,
}

impl<D: Disk> Waiting<D> {
    pub(crate) fn new(disk: D, meanwhile: Arc<Meanwhile>) -> Waiting<D> {
        Waiting { disk, meanwhile }
    }

    /// The disk below.
    pub(crate) fn into_disk(self) -> D {
        self.disk
    }
}

impl<D: Disk> Disk for Waiting<D> {
    type Flush = WaitingFlush;

    type Peer = NoPeer;

    ghost meaning = { λ d. D.meaning d.disk };

    fn size(&mut self) -> Result<u64, Failed> {
        self.disk.size()
    }

    fn read_at(&mut self, at: u64, buf: &mut [u8]) -> Result<(), Failed> {
        self.disk.read_at(at, buf)
    }

    fn write_at(&mut self, at: u64, bytes: &[u8]) -> Result<(), Failed> {
        self.disk.write_at(at, bytes)
    }

    fn sync(&mut self) -> Result<(), Failed> {
        self.disk.sync()
    }

    fn flush(&mut self) -> WaitingFlush {
        WaitingFlush {
            meanwhile: Arc::try_clone(&self.meanwhile).ok(),
        }
    }

    fn flushed(&mut self, flush: WaitingFlush) -> Result<(), Failed> {
        drop(flush);
        self.disk.sync()
    }

    fn peer(&self) -> Option<NoPeer> {
        None
    }

    fn faults(&self) -> u64 {
        self.disk.faults()
    }

    fn moment(&self) -> u64 {
        self.disk.moment()
    }

    ghost sound = { λ d. D.sound d.disk };
}
