//! Counts the calls of the outside world that fail.
ghost use Rattle.std.specs.Prelude.{◌≡◌, true};
ghost use Rattle.ports.specs.Faults.{Counts};

/// How many calls failed. It stands at the last value of its type.
#[derive(Clone, Copy)]
pub(crate) struct Tally {
    faults: u64,
}

impl Tally {
    /// None has failed.
    pub(crate) fn new() -> Self
        ensures { result.faults ≡ 0 }
    {
        Tally { faults: 0 }
    }

    /// How many failed.
    pub(crate) fn faults(&self) -> u64
        ensures { result ≡ self.now.faults }
    {
        self.faults
    }

    /// Counts one that failed.
    pub(crate) fn rise(&mut self)
        ensures { Counts self.old.faults self.new.faults true }
    {
        self.faults = self.faults.saturating_add(1);
    }
}
