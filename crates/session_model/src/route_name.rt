//! The routes by their names.
ghost use Rattle.std.specs.Prelude.{◌≡◌};

use crate::method::{Method, Methods};

/// Which route a path has.
#[derive(Clone, Copy, Debug, PartialEq, Eq)]
pub enum RouteName {
    /// Contents, to store one.
    Contents,
    /// A content.
    Content,
    /// Contents that are joined, to store them as one.
    Wholes,
    /// Changesets, to store one.
    Changesets,
    /// A changeset.
    Changeset,
    /// A list of changesets, to store them.
    ChangesetList,
    /// A bookmark, to tell where it stands.
    Head,
    /// A bookmark with two heads, to move it from the one to the other.
    Move,
    /// A bookmark with a draft, to land it there.
    Land,
    /// A bookmark, to store a stack and land it there.
    Stack,
    /// The policy that is held, to read it or to set one.
    Policy,
    /// The policy of a number in the log.
    NumberedPolicy,
    /// A page of the log.
    Log,
    /// The fsnode of a changeset's root.
    RootFsnode,
    /// The fsnode of a directory.
    Fsnode,
    /// The unode of a changeset's root.
    RootUnode,
    /// The unode of a file or a directory.
    Unode,
    /// The deleted node of a changeset's root.
    RootDeleted,
    /// The deleted node of a path.
    Deleted,
    /// The history of a file.
    History,
    /// The changesets at which a path changed.
    PathLog,
    /// What a changeset sets as copies.
    Copies,
}

impl RouteName {
    ghost use Rattle.session_model.specs.Methods.{methods_of};

    /// The methods that it has.
    pub fn methods(self) -> Methods
        ensures { result ≡ methods_of self }
    {
        match self {
            RouteName::Contents
            | RouteName::Wholes
            | RouteName::Changesets
            | RouteName::ChangesetList
            | RouteName::Move => Methods::One(Method::Put),
            RouteName::Land | RouteName::Stack => Methods::One(Method::Post),
            RouteName::Policy => Methods::GetAndPut,
            RouteName::Content
            | RouteName::Changeset
            | RouteName::Head
            | RouteName::NumberedPolicy
            | RouteName::Log
            | RouteName::RootFsnode
            | RouteName::Fsnode
            | RouteName::RootUnode
            | RouteName::Unode
            | RouteName::RootDeleted
            | RouteName::Deleted
            | RouteName::History
            | RouteName::PathLog
            | RouteName::Copies => Methods::One(Method::Get),
        }
    }
}
