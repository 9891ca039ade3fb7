//! What stands at a gate.
use crate::span::Span;

/// What a scan finds at a gate.
#[derive(Clone, Copy, Debug, PartialEq, Eq)]
pub enum Step {
    /// A gate that isn't open, behind which nothing counts.
    Closed,
    /// An open gate with a whole record, whose payload stands here.
    Record(Span),
    /// The file has ended at the gate, or the gate is open and its record is cut off.
    Bad { at: u64 },
}
