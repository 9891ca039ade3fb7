//! The unodes of a path before.
ghost use Rattle.std.specs.Prelude.{◌≡◌};
ghost use Rattle.std.specs.Option.{option_to_list};
ghost use Rattle.unode.specs.Parts.{parents_seen};

use object_id::Id;

/// The ids of the unodes of the same path at the parents of a changeset, where the path is of the same kind there: in
/// order, each once.
#[derive(Clone, Copy, Debug, PartialEq, Eq)]
pub enum Parents {
    Absent,
    One(Id),
    /// Those of a merge, which differ.
    Two(Id, Id),
}

impl Parents {
    /// That of one parent, if the path was there.
    pub fn of(parent: Option<Id>) -> Parents
        ensures { parents_seen result ≡ option_to_list parent }
    {
        match parent {
            Some(id) => Parents::One(id),
            None => Parents::Absent,
        }
    }
}
