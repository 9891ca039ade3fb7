//! Unodes.
ghost use Rattle.std.specs.Prelude.{◌≡◌};
ghost use Rattle.manifest_model.specs.Unode.{linknode_of};
ghost use Rattle.unode.specs.Parts.{parents_seen};
ghost use Rattle.unode.specs.Views.{unode_seen};
ghost use Rattle.unode.specs.History.{parents_of};

use crate::file::FileUnode;
use crate::manifest::UnodeManifest;
use crate::parents::Parents;
use object_id::Id;

/// The unode of a path.
#[derive(Debug, Drop)]
pub enum Unode {
    Manifest(UnodeManifest),
    File(FileUnode),
}

impl Unode {
    /// The changeset that made it.
    pub fn linknode(&self) -> Id
        ensures { result ≡ linknode_of (unode_seen self.now) }
    {
        match self {
            Unode::Manifest(manifest) => manifest.linknode,
            Unode::File(file) => file.linknode,
        }
    }

    /// The unodes of the same path before, where the path was of the same kind.
    pub fn parents(&self) -> Parents
        ensures { parents_seen result ≡ parents_of (unode_seen self.now) }
    {
        match self {
            Unode::Manifest(manifest) => manifest.parents,
            Unode::File(file) => file.parents,
        }
    }
}
