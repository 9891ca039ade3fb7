//! What tells the derivers of the log, for all lanes.
ghost use Rattle.std.specs.Prelude.{◌≡◌, ◌≤◌};

use derive_pool::Feed;
use repo_calls::Seat;
use std::alloc::Global;
use std::sync::{Mutex, Wait};

// The feed, where there are derivers, and how many lanes still go.
#[derive(Drop)]
struct Fed {
    feed: Option<Feed>,
    lanes: u64,
}

impl Fed {
    // One lane less. The last reads what the log has still, and then the feed goes, so that no id comes any more.
    fn end_lane<R: Wait, T: Seat>(&mut self, rt: &R, alloc: Global, seat: &mut T)
        ensures seals { T.sealed seat.old ≤ T.sealed seat.new }
        ensures home { T.home seat.new ≡ T.home seat.old }
    {
        self.lanes = self.lanes.saturating_sub(1);
        if self.lanes == 0 {
            self.read_pages(rt, alloc, seat);
            self.feed = None;
        }
    }

    fn tell_heads<R: Wait, T: Seat>(&mut self, rt: &R, alloc: Global, seat: &mut T)
        ensures seals { T.sealed seat.old ≤ T.sealed seat.new }
        ensures home { T.home seat.new ≡ T.home seat.old }
    {
        if let Some(feed) = &mut self.feed {
            feed.tell_heads(rt, alloc, seat);
        }
    }

    fn read_pages<R: Wait, T: Seat>(&mut self, rt: &R, alloc: Global, seat: &mut T)
        ensures seals { T.sealed seat.old ≤ T.sealed seat.new }
        ensures home { T.home seat.new ≡ T.home seat.old }
    {
        if let Some(feed) = &mut self.feed {
            feed.read_pages(rt, alloc, seat);
        }
    }
}

/// The one feed of all lanes, so that the log is read once and not by each. A lane that finds another at it goes on.
#[derive(Drop)]
pub(crate) struct Feeding {
    fed: Mutex<Fed>,
}

impl Feeding {
    /// The feed of so many lanes, or none where there are no derivers.
    pub(crate) fn new(feed: Option<Feed>, lanes: u64) -> Self {
        Feeding {
            fed: Mutex::new(Fed { feed, lanes }),
        }
    }

    /// Tells the derivers, if there are any, the heads of the bookmarks, unless another lane did or does.
    pub(crate) fn tell_heads<R: Wait, T: Seat>(&self, rt: &R, alloc: Global, seat: &mut T)
        ensures seals { T.sealed seat.old ≤ T.sealed seat.new }
        ensures home { T.home seat.new ≡ T.home seat.old }
    {
        if let Some(mut fed) = self.fed.try_lock() {
            fed.tell_heads(rt, alloc, seat);
        }
    }

    /// Tells the derivers, if there are any, what the log has since the last time, unless another lane does.
    pub(crate) fn read_pages<R: Wait, T: Seat>(&self, rt: &R, alloc: Global, seat: &mut T)
        ensures seals { T.sealed seat.old ≤ T.sealed seat.new }
        ensures home { T.home seat.new ≡ T.home seat.old }
    {
        if let Some(mut fed) = self.fed.try_lock() {
            fed.read_pages(rt, alloc, seat);
        }
    }

    /// One lane less. The derivers go on until none is left and no id waits.
    pub(crate) fn end_lane<R: Wait, T: Seat>(&self, rt: &R, alloc: Global, seat: &mut T)
        ensures seals { T.sealed seat.old ≤ T.sealed seat.new }
        ensures home { T.home seat.new ≡ T.home seat.old }
    {
        self.fed.lock(rt).end_lane(rt, alloc, seat);
    }
}
