//! Connections that have asked nothing yet.
ghost use Rattle.std.specs.Prelude.{◌≡◌, ◌-◌, ◌<◌, ◌≤◌, ◌++◌, ◌∷◌, ◌⊎◌, [], All, IfNone, IfSome, OnSome};
ghost use Rattle.std.specs.BTreeMap.{btree_map_len, keys};
ghost use Rattle.std.specs.Duration.{as_nanos};
ghost use Rattle.net_ports.specs.Silence.{IsLedAndPutLast, IsPutLast, Leads, minute, waited};

use mio::net::TcpStream;
use mio::{Interest, Registry, Token};
use std::alloc::Global;
use std::collections::BTreeMap;
use std::time::{Duration, Instant};

/// The most connections that wait until they have asked something.
pub const MOST_SILENT: usize = 10_000;

/// How many seconds a connection may be there before it has asked something.
pub const SILENCE: u64 = 60;

// A connection, and when it came.
#[derive(Drop)]
struct Silent {
    stream: TcpStream,
    since: Instant,
}

/// Connections that had asked nothing when they were last looked at, by numbers that rise in the order in which they came, so
/// that the first has been silent longest. There are never more than `MOST_SILENT`.
#[derive(Drop)]
pub(crate) struct SilentConnections {
    waiting: BTreeMap<usize, Silent>,
    next: usize,
    ghost few: { btree_map_len waiting ≤ 10000 },
    ghost rising: { All (λ number. number < next) (keys waiting) },
}

impl SilentConnections {
    /// None at first. The first is to be known by this number.
    pub(crate) fn new(alloc: Global, first: usize) -> Self
        ensures { result.waiting.entries ≡ [] }
    {
        SilentConnections {
            waiting: BTreeMap::new(alloc),
            next: first,
        }
    }

    /// Puts this connection last, and has it reported under its number when it sends something. Where there are as many as may
    /// be, the first leaves for it. One that can't be put there, since memory is refused, is closed.
    pub(crate) fn add(
        &mut self,
        registry: &Registry,
        stream: TcpStream,
        now: Instant,
    ) -> Option<TcpStream>
        ensures full { OnSome result (btree_map_len self.old.waiting ≡ 10000) }
        ensures last { IfNone result (IsPutLast self.old.waiting.entries self.new.waiting.entries stream now) }
        ensures first { IfSome result (IsLedAndPutLast self.old.waiting.entries self.new.waiting.entries stream now) }
    {
        let left = if self.waiting.len() >= MOST_SILENT {
            self.take_first(registry)
        } else {
            None
        };
        self.put(registry, stream, now);
        left
    }

    // Puts this connection last, where there is room.
    fn put(&mut self, registry: &Registry, stream: TcpStream, now: Instant)
        ensures { IsPutLast self.old.waiting.entries self.new.waiting.entries stream now }
    {
        let mut stream = stream;
        let number = self.next;
        if self.waiting.len() < MOST_SILENT
            && number < usize::MAX
            && registry
                .register(&mut stream, Token(number), Interest::READABLE)
                .is_ok()
        {
            self.next = number + 1;
            // a refusal gives the connection back, and it is closed
            let _ = self.waiting.insert(number, Silent { stream, since: now });
        }
    }

    /// The connection of this number, if it is there.
    pub(crate) fn get(&self, number: usize) -> Option<&TcpStream> {
        let silent = self.waiting.get(&number)?;
        Some(&silent.stream)
    }

    /// The connection of this number leaves, if it is there. It is reported no more.
    pub(crate) fn take(&mut self, registry: &Registry, number: usize) -> Option<TcpStream> {
        let silent = self.waiting.remove(&number)?;
        Some(released(registry, silent))
    }

    /// The connection that has been silent longest leaves. It is reported no more.
    pub(crate) fn take_first(&mut self, registry: &Registry) -> Option<TcpStream>
        ensures first { IfSome result (Leads self.old.waiting.entries self.new.waiting.entries) }
        ensures none { IfNone result (self.old.waiting.entries ≡ []) }
    {
        let (_, silent) = self.waiting.pop_first()?;
        Some(released(registry, silent))
    }

    /// The first leaves if it has been there for `SILENCE`. It is reported no more.
    pub(crate) fn take_expired(&mut self, registry: &Registry, now: Instant) -> Option<TcpStream>
        ensures first { IfSome result (Leads self.old.waiting.entries self.new.waiting.entries) }
        ensures due { OnSome result (minute ≤ waited now self.old.waiting.entries) }
        ensures stays { IfNone result (self.new.waiting.entries ≡ self.old.waiting.entries) }
        ensures early { IfNone result (waited now self.old.waiting.entries < minute) }
    {
        let left = self.time_left(now)?;
        if left.is_zero() {
            self.take_first(registry)
        } else {
            None
        }
    }

    /// How long the first may still be there.
    pub(crate) fn time_left(&self, now: Instant) -> Option<Duration>
        ensures left { IfSome result (λ left. as_nanos left ≡ minute - waited now self.now.waiting.entries) }
        ensures none { IfNone result (self.now.waiting.entries ≡ []) }
    {
        let (_, silent) = self.waiting.first_key_value()?;
        let passed = now.duration_since(silent.since);
        Some(Duration::from_secs(SILENCE).saturating_sub(passed))
    }
}

// The connection, which is reported no more.
fn released(registry: &Registry, silent: Silent) -> TcpStream
    ensures { result ≡ silent.stream }
{
    let mut stream = silent.stream;
    // where that is refused, a later report names a number that nothing has
    let _ = registry.deregister(&mut stream);
    stream
}
