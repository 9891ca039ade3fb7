//! A link over a TCP connection.
ghost use Rattle.std.specs.Prelude.{◌≡◌, ◌≤◌, length, None, IfOk, IfSome};

use crate::reader_source::read_uninterrupted;
use ports::{Failed, Link};
use std::io;
use std::io::{ErrorKind, Write};
use std::net::TcpStream;
use std::time::{Clock, Duration, Instant};

/// How many seconds a read waits for a byte of the peer before it fails.
pub const READ_PATIENCE: u64 = 10;

/// How many seconds it waits in place of these over a connection that was accepted, for the first byte since the last write:
/// so long may a client keep its connection between two requests.
pub const IDLE_PATIENCE: u64 = 60;

/// How many seconds a write waits for the peer to take a byte before it fails.
pub const WRITE_PATIENCE: u64 = 15;

/// How many seconds may pass between the first byte that is read after a write, or at the beginning, and a later read.
pub const REQUEST_PATIENCE: u64 = 60;

/// A TCP connection, which sends each write at once. A read that was interrupted is tried again; one for which the peer
/// sends nothing within `READ_PATIENCE` fails, or within `IDLE_PATIENCE` where the connection was accepted and nothing was read
/// since the last write; and so does one that is called when `REQUEST_PATIENCE` has passed since the first byte that was read
/// since the last write. A write fails that the peer takes nothing of within `WRITE_PATIENCE`, or in the second after it.
#[derive(Drop)]
pub struct TcpLink<R> {
    rt: R,
    stream: TcpStream,
    faults: u64,
    // when the first byte since the last write was read
    begun: Option<Instant>,
    // how many seconds a read waits for that byte, and how many the system was told to wait
    idle: u64,
    waits: u64,
}

impl<R: Clock + Copy> TcpLink<R> {
    /// A link over this connection, of which no call has failed. An error is the system's, which
    /// refused an option of the connection; the connection is closed then.
    pub fn new(rt: R, stream: TcpStream) -> io::Result<Self>
        ensures { IfOk result (λ link. ⟦<Self as Link>⟧.faults link ≡ 0) }
    {
        TcpLink::waiting(rt, stream, READ_PATIENCE)
    }

    /// The same over a connection that was accepted, which may be silent between requests for longer.
    pub fn accepted(rt: R, stream: TcpStream) -> io::Result<Self>
        ensures { IfOk result (λ link. ⟦<Self as Link>⟧.faults link ≡ 0) }
    {
        TcpLink::waiting(rt, stream, IDLE_PATIENCE)
    }

    // One whose reads wait for so many seconds where nothing was read since the last write.
    fn waiting(rt: R, stream: TcpStream, idle: u64) -> io::Result<Self>
        ensures { IfOk result (λ link. ⟦<Self as Link>⟧.faults link ≡ 0) }
    {
        stream.set_nonblocking(false)?;
        stream.set_nodelay(true)?;
        stream.set_read_timeout(Some(Duration::from_secs(READ_PATIENCE)))?;
        // one second of the patience, so that a write sees which of them passed without a byte
        stream.set_write_timeout(Some(Duration::from_secs(1)))?;
        Ok(TcpLink {
            rt,
            stream,
            faults: 0,
            begun: None,
            idle,
            waits: READ_PATIENCE,
        })
    }

    // Has the system wait as long as the next read may. It is told only where that differs from the last.
    fn set_patience(&mut self) -> Option<()>
        ensures faults { self.new.faults ≡ self.old.faults }
    {
        let wanted = if self.begun.is_none() {
            self.idle
        } else {
            READ_PATIENCE
        };
        if wanted != self.waits {
            self.stream
                .set_read_timeout(Some(Duration::from_secs(wanted)))
                .ok()?;
            self.waits = wanted;
        }
        Some(())
    }

    // Whether what is being read began too long ago. A clock that can't be read stands still.
    fn is_late(&self) -> bool {
        match (self.begun, Instant::now(&self.rt)) {
            (Some(begun), Ok(now)) => {
                now.duration_since(begun) >= Duration::from_secs(REQUEST_PATIENCE)
            }
            _ => false,
        }
    }

    // Reads, unless what is being read began too long ago.
    fn read_in_time(&mut self, buf: &mut [u8]) -> Option<usize>
        ensures bound { IfSome result (λ count. count ≤ length buf.old) }
        ensures faults { self.new.faults ≡ self.old.faults }
    {
        if self.is_late() {
            return None;
        }
        self.set_patience()?;
        let count = read_uninterrupted(&mut self.stream, buf)?;
        if self.begun.is_none() {
            self.begun = Instant::now(&self.rt).ok();
        }
        Some(count)
    }
}

impl<R: Clock + Copy> Link for TcpLink<R> {
    ghost faults = { λ l. l.faults };

    ghost rest = { λ _. None };

    ghost written = { λ _. None };

    fn read(&mut self, buf: &mut [u8]) -> Result<usize, Failed> {
        match self.read_in_time(buf) {
            Some(count) => Ok(count),
            None => {
                self.faults = self.faults.saturating_add(1);
                Err(Failed)
            }
        }
    }

    fn write(&mut self, bytes: &[u8]) -> Result<(), Failed> {
        self.begun = None;
        if write_in_time(&mut self.stream, bytes).is_err() {
            self.faults = self.faults.saturating_add(1);
            return Err(Failed);
        }
        Ok(())
    }
}

// Writes the bytes, unless `WRITE_PATIENCE` waits of a second pass one after another in which the peer takes none.
fn write_in_time(stream: &mut TcpStream, bytes: &[u8]) -> io::Result<()> {
    let mut rest = bytes;
    let mut waited = 0;
    for _ in 0..u64::MAX {
        if rest.is_empty() {
            return Ok(());
        }
        match stream.write(rest) {
            Ok(0) => return Err(io::Error::from(ErrorKind::WriteZero)),
            Ok(count) => {
                rest = &rest[count..];
                waited = 0;
            }
            Err(error) => match error.kind() {
                ErrorKind::WouldBlock if waited < WRITE_PATIENCE - 1 => waited += 1,
                ErrorKind::Interrupted => {}
                _ => return Err(error),
            },
        }
    }
    Err(io::Error::from(ErrorKind::TimedOut))
}
