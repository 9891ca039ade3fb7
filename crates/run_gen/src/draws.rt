//! Draws that are the same at every run.
ghost use Rattle.std.specs.Prelude.{◌≡◌, ◌<◌};
ghost use Rattle.run_gen.specs.Draws.{advanced, drawn};

use std::marker::Model;

// The multiplier and the increment of Knuth's MMIX.
const MULTIPLIER: u64 = 6_364_136_223_846_793_005;

const INCREMENT: u64 = 1_442_695_040_888_963_407;

// The low bits of a state, which repeat soon, are dropped.
const LOW_BITS: u64 = 8_589_934_592;

/// A linear congruential generator on 64 bits. Contracts see its state.
#[derive(Debug, Drop)]
pub struct Draws {
    state: u64,
}

impl Model for Draws {
    ghost use Rattle.std.specs.Prelude.{ℕ};

    ghost Value = { ℕ };

    ghost view = { λ d. d.state };
}

impl Draws {
    /// The draws that begin with this state.
    pub fn new(state: u64) -> Draws
        ensures { result ≡ state }
    {
        Draws { state }
    }

    /// A number below the bound.
    pub fn below(&mut self, bound: u64) -> u64
        requires { 0 < bound }
        ensures value { result ≡ drawn bound (advanced self.old) }
        ensures below { result < bound }
        ensures state { self.new ≡ advanced self.old }
    {
        self.state = self.state.wrapping_mul(MULTIPLIER).wrapping_add(INCREMENT);
        self.state / LOW_BITS % bound
    }
}
