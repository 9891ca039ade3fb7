//! Directories by their ids.
ghost use Rattle.std.specs.Prelude.{◌≡◌, ◌+◌, ℕ, List, true, IfOk};
ghost use Rattle.std.specs.Ordering.{nat_cmp};
ghost use Rattle.std.specs.Cmp.Lexicographic.{slice_cmp};
ghost use Rattle.std.specs.FinMap.{is_sorted};
ghost use Rattle.byte_fields.specs.Bytes.{Id as IdBytes};
ghost use Rattle.manifest_model.specs.Fsnode.{FsEntry as ModelEntry};
ghost use Rattle.fsnode.specs.Parts.{children_seen};

use ancestry::Steps;
use fsnode::FsChild;
use object_id::Id;
use std::alloc::{AllocError, Global};
use std::sync::ledger::Ledger;

/// Directories that tell their entries. One id stands for one list of entries, which is empty where there is no such
/// directory.
pub trait Directories {
    /// The entries of a directory with their names.
    ghost listed: { Self → IdBytes → List (List ℕ × ModelEntry) };

    /// The entries of the directory with this id.
    fn entries(&self, alloc: Global, dir: &Id) -> Result<Vec<FsChild>, AllocError>
        ensures { IfOk result (λ entries. children_seen entries.items ≡ listed self.now dir.now) };

    // They stand by rising names.
    ghost rising: { (dirs : Self) (x : IdBytes) → is_sorted (slice_cmp nat_cmp) (listed dirs x) ≡ true };
}

/// The entries of a directory, at the cost of one step.
pub(crate) fn read<D: Directories, L: Ledger>(
    alloc: Global,
    dirs: &D,
    dir: &Id,
    steps: &mut Steps<L>,
) -> Result<Vec<FsChild>, AllocError>
    ensures entries { IfOk result (λ entries. children_seen entries.items ≡ D.listed dirs.now dir.now) }
    ensures step { steps.new ≡ steps.old + 1 }
{
    steps.tick();
    dirs.entries(alloc, dir)
}
