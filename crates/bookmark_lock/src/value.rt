//! A value whose changes make a history.
ghost use Rattle.std.specs.Prelude.{◌≡◌, ◌%◌, ◌^◌, ℕ, List, length};
ghost use Rattle.disk_model.specs.Meaning.{Meaning};
ghost use Rattle.history_model.specs.History.{Entry};
ghost use Rattle.bookmark_lock.specs.Opening.{Opening};

/// A value whose changes make a history.
pub trait Recorded {
    ghost history: { Self → List Entry };

    // What no change of the value changes.
    ghost opening: { Self → Opening };

    // How many of the stored entries are sealed. A crash leaves these.
    ghost sealed: { Self → ℕ };

    // What a crash may leave of the stored entries: what is sealed, or up to here.
    ghost reach: { Self → ℕ };

    // What is told of its disk.
    ghost disk: { Self → Meaning };

    // How many stored entries of one seat may wait to be sealed.
    ghost most: { ℕ };

    /// The history's length, faults counted, modulo 2^64.
    fn length_word(&self) -> u64
        ensures { result ≡ length (history self.now) % 2 ^ 64 };

    /// How many of the stored entries are sealed.
    fn sealed_count(&self) -> u64
        ensures { result ≡ sealed self.now };
}
