//! What runs between the parts of a landing.

/// Called once a landing is planned and before it is tried, outside of every lock. Tests move the
/// bookmark here; a server does nothing.
pub trait Gate {
    /// `who` is the number of the seat that lands, and `attempt` how often it was tried before.
    fn between(&self, who: u64, attempt: u32);
}

/// Does nothing.
#[derive(Clone, Copy, Debug)]
pub struct NoGate;

impl Gate for NoGate {
    fn between(&self, _who: u64, _attempt: u32) {}
}
