//! Laws of what a changeset deletes, each the contract of a function that does nothing.
ghost use Rattle.std.specs.Prelude.{◌≡◌, ℕ, List, None, Some, Option, if◌then◌else◌, Contains};
ghost use Rattle.std.specs.FinMap.{find as find_key};
ghost use Rattle.sha2.specs.Sha256.{sha256};
ghost use Rattle.byte_fields.specs.Bytes.{Id};
ghost use Rattle.changeset_model.specs.Path.{Path, path_cmp};
ghost use Rattle.history_model.specs.History.{Known};
ghost use Rattle.history_model.specs.Past.{Past, At};
ghost use Rattle.manifest_model.specs.Deleted.{deletions};
ghost use Rattle.deleted_step.specs.declared.done.Done.{Done};
ghost use Rattle.deleted_step.specs.Steps.{AreComeAndGone, AreHeld, IsDoneOf, is_among};

/// The deletions of a changeset are the first parent's, without the paths of the files that come, and with those of the
/// files that are gone, which the changeset itself deleted.
pub fn deletions_from_the_first_parent()
    ensures { (c : Known) (first second : Past) (gone come : List Path) → AreComeAndGone c first second gone come → (p : Path) →
        find_key path_cmp p (deletions (At c first second)) ≡ if is_among p come then None else if is_among p gone then Some c.id else find_key path_cmp p (deletions first) }
{}

/// Where the first parent's nodes are held, the changeset's are held once the new ones are put in under their digests and
/// none that was there is lost. So the next changeset can be derived from these.
pub fn nodes_are_held_for_the_next()
    ensures { (before after : Id → Option (List ℕ)) (c : Known) (first second : Past) (ps : List Path) (done : Done) →
        AreHeld before first → IsDoneOf first (At c first second) ps done →
        ((n : List ℕ) → Contains done.nodes.items n → after (sha256 n) ≡ Some n) →
        ((x : Id) (n : List ℕ) → before x ≡ Some n → after x ≡ Some n) →
        AreHeld after (At c first second) }
{}
