//! Servers with few lanes and derivers.
use blob_disk::Disk;
use ports::{Accept, FixedClock, Gate, Link};
use repo_state::Alone;
use server_lanes::{Closing, serve_all};
use std::alloc::Global;
use std::sync::Wait;
use std::test::Fail;
use std::thread::Threads;

const MOST_LANES: u64 = 3;

pub(crate) const MOST_DERIVERS: u64 = 2;

/// Serves so many connections.
pub(crate) fn serve<R, D, A, L, G>(
    rt: &R,
    alloc: Global,
    alone: Alone<D>,
    accept: A,
    gate: &G,
    lanes: u64,
    derivers: u64,
    connections: u64,
) -> Result<Closing<D, A, L>, Fail>
where
    R: Threads + Wait + Sync,
    D: Disk + Send,
    D::Flush: Send,
    D::Peer: Send,
    A: Accept<L> + Send,
    L: Link + Send,
    G: Gate + Sync,
{
    if lanes == 0 || lanes > MOST_LANES || derivers > MOST_DERIVERS {
        return Err(Fail::from("lanes"));
    }
    let clock = FixedClock { moment: 0 };
    Ok(serve_all(
        rt,
        alloc,
        alone.into_state(),
        accept,
        gate,
        &clock,
        lanes,
        derivers,
        connections,
    ))
}
