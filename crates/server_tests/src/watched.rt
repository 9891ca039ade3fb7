//! A link that tells when a text goes out on it.
use ports::{Failed, Link};
use std::sync::atomic::{AtomicU64, Ordering};

/// A link that counts the writes in which a text stands.
#[derive(Drop)]
pub(crate) struct Watched<'a, L: Link> {
    link: L,
    text: &'static [u8],
    seen: &'a AtomicU64,
}

fn holds(bytes: &[u8], text: &[u8]) -> bool {
    (0..bytes.len()).any(|at| bytes[at..].starts_with(text))
}

impl<'a, L: Link> Watched<'a, L> {
    pub(crate) fn new(link: L, text: &'static [u8], seen: &'a AtomicU64) -> Self {
        Watched { link, text, seen }
    }
}

impl<'a, L: Link> Link for Watched<'a, L> {
    ghost faults = { λ w. L.faults w.link };

    ghost rest = { λ w. L.rest w.link };

    ghost written = { λ w. L.written w.link };

    fn read(&mut self, buf: &mut [u8]) -> Result<usize, Failed> {
        self.link.read(buf)
    }

    fn write(&mut self, bytes: &[u8]) -> Result<(), Failed> {
        let answer = self.link.write(bytes);
        if answer.is_ok() && holds(bytes, self.text) {
            self.seen.fetch_add(1, Ordering::SeqCst);
        }
        answer
    }
}
