//! Work on two lists at once, in threads.
ghost use Rattle.std.specs.Prelude.{◌<◌, ℕ, length};
ghost use Rattle.std.specs.Fork.{AcceptsEach, ChangesEach};
ghost use Rattle.server_lanes.specs.Both.{IsWorked};
ghost use denote.Param.Send.{IsSend, IsSync};

use std::thread::{Threads, for_each_mut, join_mut};

/// Calls `f` at each place of `xs` and `g` at each place of `ys`, each in a thread of its own where one can
/// be made. Where none can, those of `ys` come first.
pub(crate) fn for_each_of_both<
    R: Threads + Sync,
    X: Send,
    Y: Send,
    F: Fn(usize, &mut X) + Sync,
    G: Fn(usize, &mut Y) + Sync,
>(rt: &R, f: &F, g: &G, xs: &mut [X], ys: &mut [Y])
    requires first { AcceptsEach F.Fn f.now xs.old }
    requires second { AcceptsEach G.Fn g.now ys.old }
    ensures first { ChangesEach F.Fn f.now xs.old xs.new }
    ensures second { ChangesEach G.Fn g.now ys.old ys.new }
{
    let mut first = ||
        requires { IsSync R.row × IsSync F.row × IsSend X.row × AcceptsEach F.Fn f.now xs.now }
        ensures { IsWorked F.Fn f.entry.now xs.entry.now xs.exit.now }
    { for_each(rt, f, xs) };
    let mut second = ||
        requires { IsSync R.row × IsSync G.row × IsSend Y.row × AcceptsEach G.Fn g.now ys.now }
        ensures { IsWorked G.Fn g.entry.now ys.entry.now ys.exit.now }
    { for_each(rt, g, ys) };
    // the first gets a new thread, or runs last where none can be made
    join_mut(rt, &mut first, &mut second);
}

// The list is the last parameter, as the borrow checker wants of a closure that lends it.
fn for_each<R: Threads + Sync, X: Send, F: Fn(usize, &mut X) + Sync>(rt: &R, f: &F, xs: &mut [X])
    requires { AcceptsEach F.Fn f.now xs.old }
    ensures { IsWorked F.Fn f.now xs.old xs.new }
{
    let threads = xs.len().max(1);
    for_each_mut(rt, xs, threads, f);
}
