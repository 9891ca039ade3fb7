//! Laws of nodes under their digests, each the contract of a function that does nothing.
ghost use Rattle.std.specs.Prelude.{◌≡◌, ◌↔◌, ℕ, None, Some, List};
ghost use Rattle.byte_fields.specs.Bytes.{Id};
ghost use Rattle.node_table.specs.Table.{AreApart, AreDigests, Collide, Has, IsAmong, Nodes, first_collision, with_nodes};

/// After nodes are put in that don't collide, those of before and these are there, and no others.
pub fn nodes_are_added()
    ensures { (m : Nodes) (nodes : List (List ℕ)) → first_collision m nodes ≡ None → (n : List ℕ) → Has (with_nodes m nodes) n ↔ IsAmong m nodes n }
{}

/// A collision is of two different nodes, of the table or of those that are put in, which have the digest that is told.
pub fn a_collision_is_of_two_nodes()
    ensures { (m : Nodes) (nodes : List (List ℕ)) (id : Id) → AreDigests m → first_collision m nodes ≡ Some id → Collide m nodes id }
{}

/// There is no collision exactly where no two different nodes, of the table and of those that are put in, have one digest.
pub fn nodes_collide_exactly_where_two_have_one_digest()
    ensures { (m : Nodes) (nodes : List (List ℕ)) → AreDigests m → (first_collision m nodes ≡ None) ↔ AreApart m nodes }
{}
