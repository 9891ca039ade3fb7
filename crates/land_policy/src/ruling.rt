//! What decides.

/// The rule that decides: the first one that matches.
#[derive(Clone, Copy, Debug, PartialEq, Eq)]
pub struct Ruling {
    /// Its number, from 0.
    pub number: usize,
    /// Whether it is an `allow`.
    pub allows: bool,
}
