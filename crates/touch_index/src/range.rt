//! Ranges of changesets.
ghost use Rattle.std.specs.Prelude.{◌≡◌, ℕ, Bool};

/// Some changesets, by their numbers.
pub trait Range {
    ghost contains: { Self → ℕ → Bool };

    fn contains(&self, number: u32) -> bool
        ensures { result ≡ contains self.now number };
}
