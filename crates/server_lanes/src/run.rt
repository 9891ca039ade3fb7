//! One run of a server, as its types name it.
ghost use Rattle.std.specs.Prelude.{ℕ};

use std::marker::Brand;
use std::sync::ledger::Ledger;

/// What a run began with, and the ledger of its links.
pub trait Run: Ledger {
    /// How many links may be taken.
    ghost connections: { ℕ };

    /// How many links the accept had given.
    ghost given: { ℕ };

    /// How often the accept had failed.
    ghost faults: { ℕ };
}

impl Run for Brand {
    ghost connections = { 0 };

    ghost given = { 0 };

    ghost faults = { 0 };
}
