//! The first bytes of payloads, which tell what they are of.

/// `B`: a content.
pub(crate) const CONTENT: u8 = 0x42;
/// `W`: a content that is made of others.
pub(crate) const WHOLE: u8 = 0x57;
/// `C`: a changeset, of whose spelling it is the first byte.
pub(crate) const CHANGESET: u8 = 0x43;
/// `M`: a move of a bookmark.
pub(crate) const MOVE: u8 = 0x4D;
/// `L`: a landing without a moment.
pub(crate) const LANDING: u8 = 0x4C;
/// `N`: a landing with its moment.
pub(crate) const DATED_LANDING: u8 = 0x4E;
/// `R`: a policy, which always stands behind a caller.
pub(crate) const POLICY: u8 = 0x52;
/// `A`: a caller, and then a move, a landing or a policy.
pub(crate) const CALLER: u8 = 0x41;
