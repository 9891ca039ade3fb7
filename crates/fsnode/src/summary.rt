//! Counts and sums of a directory.
ghost use Rattle.std.specs.Prelude.{◌≡◌, [], ◌∷◌};

/// What a directory has, directly in it and at any depth.
#[derive(Clone, Copy, Debug, PartialEq, Eq)]
pub struct Summary {
    /// How many files are directly in it.
    pub child_files_count: u64,
    /// The sum of their sizes in bytes.
    pub child_files_total_size: u64,
    /// How many directories are directly in it.
    pub child_dirs_count: u64,
    /// How many files are in it at any depth.
    pub descendant_files_count: u64,
    /// The sum of their sizes in bytes.
    pub descendant_files_total_size: u64,
}

impl Summary {
    /// Its numbers in the order of its fields.
    pub fn numbers(&self) -> [u64; 5]
        ensures { result ≡ self.now.child_files_count ∷ self.now.child_files_total_size ∷ self.now.child_dirs_count ∷ self.now.descendant_files_count ∷ self.now.descendant_files_total_size ∷ [] }
    {
        [
            self.child_files_count,
            self.child_files_total_size,
            self.child_dirs_count,
            self.descendant_files_count,
            self.descendant_files_total_size,
        ]
    }
}
