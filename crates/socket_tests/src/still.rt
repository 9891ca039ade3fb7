//! A runtime whose clock a test moves.
use std::fmt::Display;
use std::io;
use std::io::Eprint;
use std::net::{Net, SocketAddr, TcpListener, TcpStream};
use std::sync::atomic::{AtomicU64, Ordering};
use std::time::{Clock, Duration};

/// The system's sockets and standard error, with a clock that stands until the test moves it.
#[derive(Drop)]
pub(crate) struct Still<'a> {
    rt: &'a HostRuntime,
    seconds: AtomicU64,
}

impl<'a> Still<'a> {
    pub(crate) fn new(rt: &'a HostRuntime) -> Self {
        Still {
            rt,
            seconds: AtomicU64::new(0),
        }
    }

    /// So many seconds have passed now.
    pub(crate) fn move_to(&self, seconds: u64) {
        self.seconds.store(seconds, Ordering::SeqCst);
    }
}

impl Net for Still<'_> {
    type Stream = TcpStream;

    type Listener = TcpListener;

    fn bind(&self, addr: SocketAddr) -> io::Result<TcpListener> {
        self.rt.bind(addr)
    }

    fn connect(&self, addr: SocketAddr) -> io::Result<TcpStream> {
        self.rt.connect(addr)
    }
}

impl Clock for Still<'_> {
    fn monotonic(&self) -> io::Result<Duration> {
        Ok(Duration::from_secs(self.seconds.load(Ordering::SeqCst)))
    }

    fn since_1970(&self) -> io::Result<Duration> {
        self.monotonic()
    }
}

impl Eprint for Still<'_> {
    fn eprint<D: Display + Drop>(&self, value: D) -> io::Result<()> {
        self.rt.eprint(value)
    }

    fn eprintln<D: Display + Drop>(&self, value: D) -> io::Result<()> {
        self.rt.eprintln(value)
    }
}
