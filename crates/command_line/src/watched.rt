//! An accept whose failures code can see.
ghost use Rattle.std.specs.Prelude.{◌≡◌, ◌≤◌, ℕ, false, true};
ghost use Rattle.ports.specs.Faults.{Rose};

use ports::{Accept, Failed};
use std::marker::{Brand, Model, PhantomData};

/// An accept's count of faults when it began to be watched, as a type names it.
pub(crate) trait Since {
    ghost faults: { ℕ };
}

impl Since for Brand {
    ghost faults = { 0 };
}

/// An accept with the number of its calls that failed, which itself it tells to contracts alone.
#[derive(Drop)]
pub(crate) struct Watched<A: Accept<K>, K, N: Since> {
    accept: A,
    failures: u64,
    of: PhantomData<K>,
    since: PhantomData<N>,
}

impl<A: Accept<K>, K, N: Since> Model for Watched<A, K, N> {
    ghost use Rattle.command_line.specs.Watching.{IsWatched, WatchedView};

    ghost Value = { WatchedView A };

    ghost view = { λ w. record { accept = w.accept; failures = w.failures } };

    ghost invariant = { λ w. IsWatched N.faults w.failures (A.faults w.accept) };
}

impl<A: Accept<K>, K, N: Since> Watched<A, K, N> {
    /// The accept, of which no call has failed since.
    pub(crate) fn new(accept: A) -> Self
        requires { A.faults accept ≡ N.faults }
        ensures { result ≡ record { accept = accept; failures = 0 } }
    {
        Watched {
            accept,
            failures: 0,
            of: PhantomData,
            since: PhantomData,
        }
    }

    /// The accept, and whether a call of it has failed.
    pub(crate) fn into_parts(self) -> (A, bool)
        ensures accept { result.0 ≡ self.accept }
        ensures none { result.1 ≡ false → self.failures ≡ 0 }
        ensures fault { result.1 ≡ true → Rose N.faults (A.faults result.0) }
        ensures calm { result.1 ≡ false → A.faults result.0 ≡ N.faults }
        ensures grows { N.faults ≤ A.faults result.0 }
    {
        let Watched {
            accept,
            failures,
            ..
        } = self;
        (accept, failures > 0)
    }
}

impl<A: Accept<K>, K, N: Since> Accept<K> for Watched<A, K, N> {
    ghost faults = { λ w. w.failures };

    ghost given = { λ w. A.given w.accept };

    ghost over = { λ w. A.over w.accept };

    ghost next_link = { λ w. A.next_link w.accept };

    fn next(&mut self) -> Result<Option<K>, Failed> {
        let next = self.accept.next();
        if next.is_err() {
            self.failures = self.failures.saturating_add(1);
        }
        next
    }
}
