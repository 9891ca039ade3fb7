//! What gives disks by their names.
ghost use Rattle.std.specs.Prelude.{◌≡◌, ℕ, Option, Some, is_err, IfOk, OnOk, OnErr};
ghost use Rattle.std.specs.Option.{ForSome, option_map};
ghost use Rattle.ports.specs.Faults.{Counts};
ghost use Rattle.ports.specs.Openers.{Shelf, given, left};

use crate::failed::Failed;

/// Opens what stands under a name, as a file system opens files.
pub trait Opener<D> {
    /// How often a call has failed.
    ghost faults: { Self → ℕ };

    /// What stands under each name, where the opener tells it.
    ghost shelf: { Self → Option (Shelf D) };

    /// Opens what has this name, or where nothing has it and `create` is set, something new.
    /// What it gives is gone from the shelf. A call that fails leaves all there.
    fn open(&mut self, name: &str, create: bool) -> Result<D, Failed>
        ensures gives { IfOk result (λ disk. ForSome (shelf self.old) (λ s. given name.now create s ≡ Some disk)) }
        ensures left { OnOk result (shelf self.new ≡ option_map (left name.now create) (shelf self.old)) }
        ensures err { OnErr result (shelf self.new ≡ shelf self.old) }
        ensures faults { Counts (faults self.old) (faults self.new) (is_err result) };
}
