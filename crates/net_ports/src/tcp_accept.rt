//! An accept over a TCP listener.
ghost use Rattle.std.specs.Prelude.{◌≡◌, false, None, IfOk};

use crate::porch::Porch;
use crate::tcp_link::TcpLink;
use ports::{Accept, Failed};
use std::alloc::Global;
use std::io;
use std::io::{Eprint, ErrorKind};
use std::net::{Net, SocketAddr, TcpStream};
use std::time::Clock;

/// Gives the connections that come to an address, each once it has asked something: once the whole head of its first request
/// can be read, or `MOST_HEAD` bytes. One that hasn't is silent, and takes nobody's turn: it waits aside for at most `SILENCE`,
/// with at most `MOST_SILENT` others, of which the one that has been silent longest goes first; one that ends so is closed.
/// What concerns one connection is passed over; where the system lacks something, as descriptors, that is said on standard
/// error, and tried again after `PAUSE`. The first call says there where it listens. It never says that no more will come.
/// Where listening has ended or never began, each call fails.
#[derive(Drop)]
pub struct TcpAccept<R> {
    porch: Option<Porch<R>>,
    given: u64,
    faults: u64,
}

impl<R: Clock + Eprint + Copy> TcpAccept<R> {
    /// An accept without a listener, which stands in where an address can't be listened at. It has given nothing and
    /// no call has failed; each one will, and be counted.
    pub fn absent() -> Self
        ensures faults { ⟦<Self as Accept<TcpLink<R>>>⟧.faults result ≡ 0 }
        ensures given { ⟦<Self as Accept<TcpLink<R>>>⟧.given result ≡ 0 }
        ensures over { ⟦<Self as Accept<TcpLink<R>>>⟧.over result ≡ false }
    {
        TcpAccept {
            porch: None,
            given: 0,
            faults: 0,
        }
    }

    /// The address that it listens at, with the port that the system picked. Without a listener there is none.
    pub fn local_addr(&self) -> io::Result<SocketAddr> {
        match &self.porch {
            Some(porch) => porch.local_addr(),
            None => Err(io::Error::from(ErrorKind::NotConnected)),
        }
    }
}

impl<R: Net + Clock + Eprint + Copy> TcpAccept<R> {
    /// An accept at `HOST:PORT`, where port 0 lets the system pick one. It has given nothing and no call has failed. An error
    /// is the system's: no such host, or an address that is taken or isn't this machine's; or memory is refused.
    pub fn bind(rt: R, alloc: Global, address: &str) -> io::Result<Self>
        ensures faults { IfOk result (λ accept. ⟦<Self as Accept<TcpLink<R>>>⟧.faults accept ≡ 0) }
        ensures given { IfOk result (λ accept. ⟦<Self as Accept<TcpLink<R>>>⟧.given accept ≡ 0) }
        ensures over { IfOk result (λ accept. ⟦<Self as Accept<TcpLink<R>>>⟧.over accept ≡ false) }
    {
        Ok(TcpAccept {
            porch: Some(Porch::bind(rt, alloc, address)?),
            given: 0,
            faults: 0,
        })
    }
}

impl<R: Clock + Eprint + Copy> Accept<TcpLink<R>> for TcpAccept<R> {
    ghost faults = { λ a. a.faults };

    ghost given = { λ a. a.given };

    ghost over = { λ _. false };

    ghost next_link = { λ _. None };

    fn next(&mut self) -> Result<Option<TcpLink<R>>, Failed> {
        let given = self.given;
        match next_link(&mut self.porch) {
            Some(link) => {
                self.given = given.saturating_add(1);
                Ok(Some(link))
            }
            None => {
                self.faults = self.faults.saturating_add(1);
                Err(Failed)
            }
        }
    }
}

// The next connection as a link. One whose options the system refuses is closed, and the next is taken.
fn next_link<R: Clock + Eprint + Copy>(porch: &mut Option<Porch<R>>) -> Option<TcpLink<R>> {
    let porch = porch.as_mut()?;
    for _ in 0..u64::MAX {
        let stream = porch.next_stream()?;
        if let Ok(link) = TcpLink::accepted(porch.runtime(), TcpStream::from(stream)) {
            return Some(link);
        }
    }
    None
}
