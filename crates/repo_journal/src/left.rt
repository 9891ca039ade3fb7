//! What stands of a group that isn't sealed.

ghost use Rattle.std.specs.Prelude.{◌≡◌};
ghost use Rattle.repo_journal.specs.Left.{cut_in};

use crate::cut::Cut;

/// A group of records whose seal was begun and isn't done: how many bytes it has, and how far its seal has come.
#[derive(Clone, Copy, Debug, PartialEq, Eq)]
pub struct Left {
    /// How many of the bytes that wait are the group's. They are the first. After a fault of an append, how many bytes it had.
    pub length: u64,
    pub at: At,
}

/// How far the seal of a group has come.
#[derive(Clone, Copy, Debug, PartialEq, Eq)]
pub enum At {
    /// The group is written, behind a gate that is closed. A sync of it is made elsewhere.
    Laid,
    /// It is on the disk, and the gate is written open. A sync of the gate is made elsewhere.
    Opened,
    /// A call of the disk failed, and nothing may be added any more.
    Cut(Cut),
}

impl Left {
    /// The device call at which the seal was cut off, if it was.
    pub fn cut(&self) -> Option<Cut>
        ensures { result ≡ cut_in self.now }
    {
        match self.at {
            At::Laid | At::Opened => None,
            At::Cut(cut) => Some(cut),
        }
    }
}
