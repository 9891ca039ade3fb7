//! Derivers, and what each does with the ids that it takes.
ghost use Rattle.std.specs.Prelude.{◌≡◌, List};
ghost use Rattle.std.specs.Iterator.{Drains, IsFinite};
ghost use Rattle.byte_fields.specs.Bytes.{Id as IdBytes};
ghost use Rattle.history_model.specs.History.{Entry};
ghost use Rattle.derive_pool.specs.Pool.{DerivesAll};

use crate::channel::IdsFrom;
use object_id::Id;
use repo_calls::AskFault;
use std::alloc::Global;
use std::sync::Wait;

/// A seat at which the manifests of a changeset are derived.
pub trait Derives {
    // What no call changes: where the seat belongs.
    ghost Home: { Type 0 };

    ghost home: { Self → Home };

    /// The entries that it made, among those that it has seen.
    ghost own: { Self → List Entry };

    /// What a call does: the seat before, the id, and the seat after.
    ghost derives: { Self → IdBytes → Self → Type 0 };

    /// Derives what the changeset of this id lacks, and makes no entry. The fault is why it lacks some
    /// still: nothing is lost by it, since a read derives as well.
    fn derive(&mut self, alloc: Global, id: Id) -> Result<(), AskFault>
        ensures derives { derives self.old id self.new }
        ensures home { home self.new ≡ home self.old }
        ensures own { own self.new ≡ own self.old };
}

/// Derives for each id that comes, until none comes any more. It goes on after any fault. Which ids come
/// isn't promised.
pub fn derive_ids<R: Wait, S: Derives>(rt: &R, alloc: Global, seat: &mut S, ids: &IdsFrom)
    ensures derived { (given : List IdBytes) × DerivesAll S.derives seat.old given seat.new }
    ensures home { S.home seat.new ≡ S.home seat.old }
    ensures own { S.own seat.new ≡ S.own seat.old }
{
    derive_each(alloc, seat, ids.receiver.iter(rt));
}

// Derives for each of these ids, in their order, whatever faults there are.
#[tactic(auto, using(crate::proofs::Deriving::derives_more))]
fn derive_each<S: Derives, I: Iterator<Item = Id> + Drop>(alloc: Global, seat: &mut S, ids: I)
    requires can { I.can_next ids }
    requires ends { IsFinite (I.remaining ids) }
    ensures derived { (given : List IdBytes) × Drains I.next_gives ids given × DerivesAll S.derives seat.old given seat.new }
    ensures home { S.home seat.new ≡ S.home seat.old }
    ensures own { S.own seat.new ≡ S.own seat.old }
{
    for id in ids {
        let _ = seat.derive(alloc, id);
    }
}
