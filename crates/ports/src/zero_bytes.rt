//! Bytes in place of random ones.
use std::io;
use std::random::RandomSource;

/// A source of random bytes that are all 0, so that what follows from them can be had again.
pub struct ZeroBytes;

impl RandomSource for ZeroBytes {
    fn fill_bytes(&self, buf: &mut [u8]) -> io::Result<()> {
        buf.fill(0);
        Ok(())
    }
}
