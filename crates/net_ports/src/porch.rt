//! Where connections wait until they ask something.
ghost use Rattle.std.specs.Prelude.{◌≡◌, ◌≢◌, ◌↔◌};
ghost use Rattle.std.specs.IoError.{raw_os_error};
ghost use Rattle.net_ports.specs.Errors.{EndsListening};

use crate::asking::{MOST_HEAD, has_head};
use crate::concern::{Concern, concern_of};
use crate::silent::SilentConnections;
use mio::net::{TcpListener, TcpStream};
use mio::{Events, Interest, Poll, Token};
use std::alloc::Global;
use std::io::{Eprint, ErrorKind};
use std::net::{Net, SocketAddr, ToSocketAddrs};
use std::time::{Clock, Duration, Instant};
use std::{io, thread};

/// How many milliseconds an accept that the system lacks something for waits before it tries again.
pub const PAUSE: u64 = 50;

// At most once in so many seconds a shortage is told.
const TELLING: u64 = 60;

// How many connections are taken in before those that wait are looked at again.
const BURST: u32 = 64;

// How many reports one look at those that wait brings at most.
const REPORTS: usize = 256;

// The listener's number. Connections have higher ones.
const LISTENER: usize = 0;

// What a step came to.
enum Step {
    // A connection that has asked something.
    Gives(TcpStream),
    // There may be more to do.
    GoesOn,
    // No connection will come any more.
    Ends,
}

// What is known of a connection.
#[derive(Clone, Copy, PartialEq, Eq)]
enum Look {
    // It has asked something.
    Asks,
    // It may still ask something.
    Silent,
    // It is at its end, or it has failed.
    Ended,
}

// What was reported: a number, and whether the peer sends no more.
#[derive(Clone, Copy)]
struct Report {
    number: usize,
    closed: bool,
}

/// Takes in the connections of a listener, and keeps each until it asks something, for as long as a silent one may stay.
#[derive(Drop)]
pub(crate) struct Porch<R> {
    rt: R,
    listener: TcpListener,
    poll: Poll,
    // the reports of the last look, and how many of them were followed
    events: Events,
    followed: usize,
    silent: SilentConnections,
    // room for what a connection has sent
    window: Vec<u8>,
    // whether connections may stand at the listener, and how many were taken in since the last look
    may_come: bool,
    taken: u32,
    now: Instant,
    told: Option<Instant>,
    announced: bool,
}

impl<R: Net + Clock + Eprint + Copy> Porch<R> {
    /// A porch of a listener at this `HOST:PORT`. An error is the system's, or memory is refused.
    pub(crate) fn bind(rt: R, alloc: Global, address: &str) -> io::Result<Self> {
        let mut listener = listen(&rt, address)?;
        let poll = Poll::new(&rt)?;
        poll.registry()
            .register(&mut listener, Token(LISTENER), Interest::READABLE)?;
        let events = Events::with_capacity(alloc, REPORTS)?;
        let window = vec![in alloc; 0; MOST_HEAD]?;
        let now = Instant::now(&rt)?;
        Ok(Porch {
            rt,
            listener,
            poll,
            events,
            followed: 0,
            silent: SilentConnections::new(alloc, LISTENER + 1),
            window,
            may_come: true,
            taken: 0,
            now,
            told: None,
            announced: false,
        })
    }
}

impl<R: Clock + Eprint + Copy> Porch<R> {
    /// The address that it listens at.
    pub(crate) fn local_addr(&self) -> io::Result<SocketAddr> {
        self.listener.local_addr()
    }

    /// The runtime that it stands on.
    pub(crate) fn runtime(&self) -> R {
        self.rt
    }

    /// The next connection that has asked something. `None` where listening has ended.
    pub(crate) fn next_stream(&mut self) -> Option<TcpStream> {
        self.announce();
        for _ in 0..u64::MAX {
            match self.step() {
                Step::Gives(stream) => return Some(stream),
                Step::GoesOn => {}
                Step::Ends => return None,
            }
        }
        None
    }

    // Says once on standard error where it listens.
    fn announce(&mut self) {
        if !self.announced {
            self.announced = true;
            if let Ok(address) = self.local_addr() {
                // where that can't be said it listens all the same
                let _ = eprintln!(self.rt; "listening at {address}");
            }
        }
    }

    // Follows one report, or takes in one connection, or waits.
    fn step(&mut self) -> Step {
        if let Some(report) = self.next_report() {
            return self.follow(report);
        }
        if self.may_come && self.taken < BURST {
            self.taken += 1;
            return self.take_in();
        }
        self.wait()
    }

    // The next report of the last look.
    fn next_report(&mut self) -> Option<Report> {
        let event = self.events.iter().nth(self.followed)?;
        let report = Report {
            number: event.token().0,
            closed: event.is_read_closed(),
        };
        self.followed = self.followed.saturating_add(1);
        Some(report)
    }

    // Looks at what was reported. A connection that is still silent keeps its place.
    fn follow(&mut self, report: Report) -> Step {
        let Report { number, closed } = report;
        if number == LISTENER {
            self.may_come = true;
            return Step::GoesOn;
        }
        let Some(stream) = self.silent.get(number) else {
            return Step::GoesOn;
        };
        match look_at(stream, &mut self.window) {
            Look::Silent if !closed => Step::GoesOn,
            Look::Silent | Look::Ended => {
                self.silent.take(self.poll.registry(), number);
                Step::GoesOn
            }
            Look::Asks => match self.silent.take(self.poll.registry(), number) {
                Some(stream) => Step::Gives(stream),
                None => Step::GoesOn,
            },
        }
    }

    // Takes in the next connection.
    fn take_in(&mut self) -> Step {
        self.read_clock();
        match self.listener.accept() {
            Ok((stream, _)) => self.sort(stream),
            Err(error) => self.meet(&error),
        }
    }

    // Gives a new connection, keeps it or closes it.
    fn sort(&mut self, stream: TcpStream) -> Step
        ensures { result ≢ Step.Ends }
    {
        match look_at(&stream, &mut self.window) {
            Look::Asks => Step::Gives(stream),
            Look::Silent => {
                match self.silent.add(self.poll.registry(), stream, self.now) {
                    Some(first) => self.give_if_asked(first),
                    None => Step::GoesOn,
                }
            }
            Look::Ended => Step::GoesOn,
        }
    }

    // An accept gave no connection. It ends listening only where the error is the listener's own.
    fn meet(&mut self, error: &io::Error) -> Step
        ensures { (result ≡ Step.Ends) ↔ EndsListening (raw_os_error error.now) }
    {
        match concern_of(error) {
            Concern::NoneWaits => {
                self.may_come = false;
                Step::GoesOn
            }
            Concern::OneConnection => Step::GoesOn,
            Concern::Descriptors => {
                self.tell(error);
                match self.silent.take_first(self.poll.registry()) {
                    // the next try has its descriptor
                    Some(first) => self.give_if_asked(first),
                    None => self.pause(),
                }
            }
            Concern::Shortage => {
                self.tell(error);
                self.pause()
            }
            Concern::Listener => Step::Ends,
        }
    }

    // Gives a connection that has left its place, unless it has asked nothing: then it is closed.
    fn give_if_asked(&mut self, stream: TcpStream) -> Step
        ensures { result ≢ Step.Ends }
    {
        match look_at(&stream, &mut self.window) {
            Look::Asks => Step::Gives(stream),
            Look::Silent | Look::Ended => Step::GoesOn,
        }
    }

    // Waits a little. Those that wait are looked at before an accept is tried again.
    fn pause(&mut self) -> Step
        ensures { result ≡ Step.GoesOn }
    {
        self.taken = BURST;
        thread::sleep(&self.rt, Duration::from_millis(PAUSE));
        Step::GoesOn
    }

    // Says on standard error that the system lacks something, unless it was said a short time ago.
    fn tell(&mut self, error: &io::Error) {
        let is_due = match self.told {
            Some(told) => self.now.duration_since(told) >= Duration::from_secs(TELLING),
            None => true,
        };
        if is_due {
            self.told = Some(self.now);
            // where that can't be said either, it is left
            let _ = eprintln!(self.rt; "can't take a connection now: {error}; trying again");
        }
    }

    // Waits until something is reported or a connection has been silent for too long. Where connections may stand at the
    // listener it only looks.
    fn wait(&mut self) -> Step {
        self.read_clock();
        if let Some(first) = self.silent.take_expired(self.poll.registry(), self.now) {
            return self.give_if_asked(first);
        }
        let most = if self.may_come {
            Some(Duration::ZERO)
        } else {
            self.silent.time_left(self.now)
        };
        self.taken = 0;
        self.followed = 0;
        match self.poll.poll(&mut self.events, most) {
            Ok(()) => Step::GoesOn,
            Err(_) => Step::Ends,
        }
    }

    // A clock that can't be read stands still.
    fn read_clock(&mut self) {
        if let Ok(now) = Instant::now(&self.rt) {
            self.now = now;
        }
    }
}

// Listens at the first of the host's addresses where that can be done. The error is that of the last that was tried.
fn listen<R: Net>(net: &R, address: &str) -> io::Result<TcpListener> {
    let mut last = io::Error::from(ErrorKind::InvalidInput);
    for address in address.to_socket_addrs(net)? {
        match TcpListener::bind(net, address) {
            Ok(listener) => return Ok(listener),
            Err(error) => last = error,
        }
    }
    Err(last)
}

// Looks at what a connection has sent, without waiting and without taking it.
fn look_at(stream: &TcpStream, window: &mut [u8]) -> Look {
    for _ in 0..u64::MAX {
        match stream.peek(window) {
            Ok(0) => return Look::Ended,
            Ok(count) if count >= window.len() || has_head(&window[..count]) => return Look::Asks,
            Ok(_) => return Look::Silent,
            Err(e) if e.kind() == ErrorKind::WouldBlock => return Look::Silent,
            Err(e) if e.kind() == ErrorKind::Interrupted => {}
            Err(_) => return Look::Ended,
        }
    }
    Look::Ended
}
