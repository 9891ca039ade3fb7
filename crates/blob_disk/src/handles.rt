//! The handles of a disk that makes each sync itself, and has no second handle.

use crate::disk::{Flush, Peer};

/// A sync that is made only once it is brought back.
#[derive(Drop)]
pub struct NoFlush;

impl Flush for NoFlush {
    fn run(&mut self) {}
}

/// A second handle that reads nothing.
#[derive(Drop)]
pub struct NoPeer;

impl Peer for NoPeer {
    fn look(&self, _at: u64, _buf: &mut [u8]) -> bool {
        false
    }
}
