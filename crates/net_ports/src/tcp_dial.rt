//! An accept over the one connection to a server.
ghost use Rattle.std.specs.Prelude.{◌≡◌, false, None, IfOk};

use crate::tcp_link::TcpLink;
use ports::{Accept, Failed};
use std::alloc::{AllocError, Global};
use std::io;
use std::io::{Eprint, ErrorKind};
use std::net::{Net, TcpStream, ToSocketAddrs};
use std::time::{Clock, Duration};

/// How many seconds a dial waits for an answer.
pub const DIAL: u64 = 2;

/// Connects to a server when it is asked, gives that one connection, and says from then on that no more will come. A call
/// fails where nobody answers there within `DIAL` seconds, which is said on standard error.
#[derive(Drop)]
pub struct TcpDial<R> {
    rt: R,
    address: String,
    connected: bool,
    given: u64,
    faults: u64,
    over: bool,
}

impl<R: Net<Stream = TcpStream> + Clock + Eprint + Copy> TcpDial<R> {
    /// An accept that dials the server at `HOST:PORT`. It has given nothing and no call has failed.
    pub fn new(rt: R, alloc: Global, address: &str) -> Result<Self, AllocError>
        ensures faults { IfOk result (λ accept. ⟦<Self as Accept<TcpLink<R>>>⟧.faults accept ≡ 0) }
        ensures given { IfOk result (λ accept. ⟦<Self as Accept<TcpLink<R>>>⟧.given accept ≡ 0) }
        ensures over { IfOk result (λ accept. ⟦<Self as Accept<TcpLink<R>>>⟧.over accept ≡ false) }
    {
        let address = String::from_str(alloc, address)?;
        Ok(TcpDial {
            rt,
            address,
            connected: false,
            given: 0,
            faults: 0,
            over: false,
        })
    }
}

impl<R: Net<Stream = TcpStream> + Clock + Eprint + Copy> Accept<TcpLink<R>> for TcpDial<R> {
    ghost faults = { λ a. a.faults };

    ghost given = { λ a. a.given };

    ghost over = { λ a. a.over };

    ghost next_link = { λ _. None };

    fn next(&mut self) -> Result<Option<TcpLink<R>>, Failed> {
        // its type bounds it, in each case
        let given = self.given;
        if self.connected {
            self.over = true;
        }
        if self.over {
            return Ok(None);
        }
        match link_to(self.rt, self.address.as_str()) {
            Some(link) => {
                self.connected = true;
                self.given = given.saturating_add(1);
                Ok(Some(link))
            }
            None => {
                self.faults = self.faults.saturating_add(1);
                Err(Failed)
            }
        }
    }
}
// A link to the server at this address. Where there is none, that is said.
fn link_to<R: Net<Stream = TcpStream> + Clock + Eprint + Copy>(
    rt: R,
    address: &str,
) -> Option<TcpLink<R>> {
    match connect(rt, address) {
        Ok(link) => Some(link),
        Err(error) => {
            // where that can't be said either, the call fails all the same
            let _ = eprintln!(rt; "can't connect to {address}: {error}");
            None
        }
    }
}

// The first of the host's addresses that answers in time. The error is that of the last that was tried.
fn connect<R: Net<Stream = TcpStream> + Clock + Copy>(
    rt: R,
    address: &str,
) -> io::Result<TcpLink<R>> {
    let mut last = io::Error::from(ErrorKind::InvalidInput);
    for address in address.to_socket_addrs(&rt)? {
        match TcpStream::connect_timeout(&rt, &address, Duration::from_secs(DIAL)) {
            Ok(stream) => return TcpLink::new(rt, stream),
            Err(error) => last = error,
        }
    }
    Err(last)
}
