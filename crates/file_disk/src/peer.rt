//! A second handle on a file.

use blob_disk::Peer;
use std::fs::File;
use std::os::unix::fs::FileExt;
use std::sync::Arc;

/// Reads a file, by `pread`, while its disk is used. A read that fails isn't counted and not told of: what is wanted is
/// asked of the disk then.
#[derive(Drop)]
pub struct FilePeer {
    file: Arc<File>,
}

impl FilePeer {
    /// A share of this file, where one is to be had.
    pub(crate) fn new(file: &Arc<File>) -> Option<Self> {
        match Arc::try_clone(file) {
            Ok(file) => Some(FilePeer { file }),
            Err(_) => None,
        }
    }
}

impl Peer for FilePeer {
    fn look(&self, at: u64, buf: &mut [u8]) -> bool {
        self.file.read_exact_at(buf, at).is_ok()
    }
}
