//! Unodes of directories.
ghost use Rattle.std.specs.Prelude.{◌≡◌, true};
ghost use Rattle.manifest_model.specs.Unode.{is_unode};
ghost use Rattle.unode.specs.Parts.{manifest_of_parts};

use crate::entry::UnodeChild;
use crate::parents::Parents;
use object_id::Id;

/// A directory as one changeset left it. Its entries stand by rising names, and each fits its field.
#[derive(Debug, Drop)]
pub struct UnodeManifest {
    /// The unodes of the same path before, where the path was a directory.
    pub parents: Parents,
    /// The changeset that made it.
    pub linknode: Id,
    pub entries: Vec<UnodeChild>,
    pub ghost valid: { is_unode (manifest_of_parts parents linknode entries) ≡ true },
}
