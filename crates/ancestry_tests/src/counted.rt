//! Calls that count their steps, on a count of their own.
ghost use Rattle.std.specs.Prelude.{◌≡◌, ◌+◌, ◌<◌, ◌≤◌, ◌^◌, length, IsTrue};
ghost use Rattle.ancestry.specs.Forest as forest;

use ancestry::{Chain, Steps};
use std::marker::Brand;
use std::sync::ledger::{Blank, Ledger};

/// Whether a member is an ancestor of another one.
fn is_ancestor(chain: &Chain, a: u32, x: u32) -> bool
    requires a_known { a < length chain.now.parents }
    requires x_known { x < length chain.now.parents }
    ensures is_ancestor { result ≡ forest.is_member a (forest.chain chain.now.parents x) }
    ensures earlier { forest.AreEarlier chain.now.parents }
{
    is_ancestor_on::<Brand>(chain, a, x, Blank::new(1))
}

fn is_ancestor_on<L: Ledger>(chain: &Chain, a: u32, x: u32, blank: Blank) -> bool
    requires name { blank.name ≡ L.name }
    requires parts { blank.parts ≡ L.parts }
    requires some { 0 < blank.parts }
    requires a_known { a < length chain.now.parents }
    requires x_known { x < length chain.now.parents }
    ensures is_ancestor { result ≡ forest.is_member a (forest.chain chain.now.parents x) }
    ensures earlier { forest.AreEarlier chain.now.parents }
{
    let mut steps = Steps::<L>::new(blank);
    chain.is_ancestor(a, x, &mut steps)
}

/// Whether the chain of a member begins at a root and has fewer than 8,192 members, so that its length has at most 13 binary
/// digits.
pub(crate) fn is_short(chain: &Chain, root: u32, x: u32) -> bool
    requires root_known { root < length chain.now.parents }
    requires x_known { x < length chain.now.parents }
    ensures { IsTrue result → length (forest.line chain.now.parents x) < 2 ^ 13 }
{
    if chain.parent(root).is_some() || !is_ancestor(chain, root, x) {
        return false;
    }
    chain.distance(root, x) < 8_191
}

/// The last common member of two short chains, found in at most 52 steps.
pub(crate) fn nearest(chain: &Chain, a: u32, b: u32) -> Option<u32>
    requires a_known { a < length chain.now.parents }
    requires b_known { b < length chain.now.parents }
    requires a_short { length (forest.line chain.now.parents a) < 2 ^ 13 }
    requires b_short { length (forest.line chain.now.parents b) < 2 ^ 13 }
{
    nearest_on::<Brand>(chain, a, b, Blank::new(1))
}

fn nearest_on<L: Ledger>(chain: &Chain, a: u32, b: u32, blank: Blank) -> Option<u32>
    requires name { blank.name ≡ L.name }
    requires parts { blank.parts ≡ L.parts }
    requires some { 0 < blank.parts }
    requires a_known { a < length chain.now.parents }
    requires b_known { b < length chain.now.parents }
    requires a_short { length (forest.line chain.now.parents a) < 2 ^ 13 }
    requires b_short { length (forest.line chain.now.parents b) < 2 ^ 13 }
{
    let mut steps = Steps::<L>::new(blank);
    nearest_in_52_steps(chain, a, b, &mut steps)
}

fn nearest_in_52_steps<L: Ledger>(
    chain: &Chain,
    a: u32,
    b: u32,
    steps: &mut Steps<L>,
) -> Option<u32>
    requires a_known { a < length chain.now.parents }
    requires b_known { b < length chain.now.parents }
    requires a_short { length (forest.line chain.now.parents a) < 2 ^ 13 }
    requires b_short { length (forest.line chain.now.parents b) < 2 ^ 13 }
    ensures { steps.new ≤ steps.old + 52 }
{
    chain.nearest(a, b, steps)
}
