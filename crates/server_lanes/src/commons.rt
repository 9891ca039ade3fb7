//! What the lanes of a server share beside its repository and its door.
use crate::feeding::Feeding;
use crate::permits::Bounds;
use derive_pool::Feed;

/// The permits of their calls, and what tells the derivers of the log.
#[derive(Drop)]
pub(crate) struct Commons {
    pub(crate) bounds: Bounds,
    pub(crate) feeding: Feeding,
}

impl Commons {
    /// Those of so many lanes. It takes no memory.
    pub(crate) fn new(feed: Option<Feed>, lanes: u64) -> Self {
        Commons {
            bounds: Bounds::new(),
            feeding: Feeding::new(feed, lanes),
        }
    }
}
