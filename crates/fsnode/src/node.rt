//! Fsnodes.
ghost use Rattle.std.specs.Prelude.{◌≡◌, true};
ghost use Rattle.manifest_model.specs.Fsnode.{is_fsnode};
ghost use Rattle.fsnode.specs.Parts.{fsnode_of_parts};

use crate::entry::FsChild;
use crate::summary::Summary;

/// The manifest of a directory. Its entries stand by rising names, and each fits its field.
#[derive(Debug, Drop)]
pub struct Fsnode {
    pub summary: Summary,
    pub entries: Vec<FsChild>,
    pub ghost valid: { is_fsnode (fsnode_of_parts summary entries) ≡ true },
}
