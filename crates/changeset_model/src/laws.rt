//! Laws of paths and changesets, each the contract of a function that does nothing.
ghost use Rattle.std.specs.Prelude.{◌≤◌, length, ◌≡◌, ◌≢◌, ◌⊎◌, ◌↔◌, ℕ, true, None, Ok, Err, List, Contains};
ghost use Rattle.byte_fields.specs.Bytes.{IsBytes};
ghost use Rattle.changeset_model.specs.Path.{Path, path_lt, comparable, rising, IsRising};
ghost use Rattle.changeset_model.specs.Changeset.{Changeset, most_encoded, self_conflict, is_changeset, spelling, Spells};
ghost use Rattle.byte_fields.specs.Reading.{read};
ghost use Rattle.byte_fields.specs.Places.{NamesPlace};
ghost use Rattle.changeset_model.specs.Decoding.{changeset, decoded};

/// Of two different paths one is less.
pub fn paths_are_ordered()
    ensures { (p q : Path) → p ≢ q → (path_lt p q ≡ true) ⊎ (path_lt q p ≡ true) }
{}

/// It doesn't matter in which order two paths are compared.
pub fn comparable_is_symmetric()
    ensures { (p q : Path) → comparable p q ≡ comparable q p }
{}

/// The paths in their order are those of the list, each once.
pub fn rising_has_the_paths()
    ensures order { (ps : List Path) → IsRising (rising ps) }
    ensures members { (ps : List Path) (p : Path) → Contains (rising ps) p ↔ Contains ps p }
{}

/// Bytes are read as a changeset exactly where they spell it.
pub fn spelling_is_read()
    ensures { (bytes : List ℕ) (c : Changeset) → IsBytes bytes → ((read changeset bytes ≡ Ok c) ↔ Spells c bytes) }
{}

/// The place of a fault is that of the first field that is cut off or breaks its rule: before it stand whole fields that keep their rules, and no bytes that agree with these up to its end spell a changeset. Where all fields are in order, it is the place of the bytes that follow.
pub fn a_fault_is_at_its_field()
    ensures { (bytes : List ℕ) (at : ℕ) → read changeset bytes ≡ Err at → NamesPlace 0 changeset bytes at }
{}

/// An upload is accepted exactly where it isn't too long and spells a changeset without a self-conflict.
pub fn upload_is_accepted()
    ensures { (bytes : List ℕ) (c : Changeset) → IsBytes bytes → ((decoded bytes ≡ Ok c) ↔ ((length bytes ≤ most_encoded) × Spells c bytes × (self_conflict c ≡ None))) }
{}

/// No two changesets have one spelling.
pub fn spelling_is_of_one()
    ensures { (c d : Changeset) → is_changeset c ≡ true → is_changeset d ≡ true → spelling c ≡ spelling d → c ≡ d }
{}
