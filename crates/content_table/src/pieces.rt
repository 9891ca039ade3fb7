//! Contents that are to be joined.
ghost use Rattle.std.specs.Prelude.{◌≡◌, List, map, find, is_none, IfOk, IfSome, Some, IsSome, Ok};
ghost use Rattle.std.specs.List.{All};
ghost use Rattle.reply_model.specs.Reply as reply;
ghost use Rattle.reply_model.specs.Reply.{refuse_some};
ghost use Rattle.repo_calls.specs.Refusing.{Gives};
ghost use Rattle.content_table.specs.Table.{lengths, places, is_whole_in, pieces_checked, stands};

use crate::part::Part;
use crate::table::ContentTable;
use object_id::Id;
use repo_calls::Refusal;
use std::alloc::{AllocError, Global};

impl ContentTable {
    /// The contents with these ids, which are to be joined in this order, with where their bytes stand. It refuses first what
    /// isn't stored, and then what was joined itself.
    pub fn pieces(&self, alloc: Global, ids: &[Id]) -> Result<Vec<Part>, Refusal>
        ensures checked { Gives (λ parts. map (λ p. p.id) parts.items) (pieces_checked (lengths self.now) (is_whole_in self.now) ids.now) result }
        ensures placed { IfOk result (λ parts. All (stands self.now) parts.items) }
    {
        self.check_stored(ids)?;
        self.check_single(ids)?;
        Ok(self.placed(alloc, ids)?)
    }

    // Refuses the first id that nothing is stored under.
    fn check_stored(&self, ids: &[Id]) -> Result<(), Refusal>
        ensures { Gives (λ done. done) (refuse_some (find (λ x. is_none (lengths self.now x)) ids.now) reply.NoPiece) result }
    {
        match self.first_absent(ids) {
            Some(id) => Err(Refusal::NoPiece { id }),
            None => Ok(()),
        }
    }

    // The first id that nothing is stored under.
    #[tactic(auto, using(crate::proofs::Finding::found_here, crate::proofs::Finding::found_on, crate::proofs::Finding::found_none))]
    fn first_absent(&self, ids: &[Id]) -> Option<Id>
        ensures { result ≡ find (λ x. is_none (lengths self.now x)) ids.now }
    {
        for id in ids {
            if self.length(id).is_none() {
                return Some(*id);
            }
        }
        None
    }

    // Refuses the first id under which a content was joined.
    fn check_single(&self, ids: &[Id]) -> Result<(), Refusal>
        ensures { Gives (λ done. done) (refuse_some (find (is_whole_in self.now) ids.now) reply.NotAPiece) result }
    {
        match self.first_joined(ids) {
            Some(id) => Err(Refusal::NotAPiece { id }),
            None => Ok(()),
        }
    }

    // The first id under which a content was joined.
    #[tactic(auto, using(crate::proofs::Finding::found_here, crate::proofs::Finding::found_on, crate::proofs::Finding::found_none))]
    fn first_joined(&self, ids: &[Id]) -> Option<Id>
        ensures { result ≡ find (is_whole_in self.now) ids.now }
    {
        for id in ids {
            if self.is_joined(id) {
                return Some(*id);
            }
        }
        None
    }

    /// The contents with these ids, each of which has a place, with where their bytes stand.
    pub fn placed(&self, alloc: Global, ids: &[Id]) -> Result<Vec<Part>, AllocError>
        requires { All (λ x. IsSome (places self.now x)) ids.now }
        ensures ids { IfOk result (λ parts. map (λ p. p.id) parts.items ≡ ids.now) }
        ensures placed { IfOk result (λ parts. All (stands self.now) parts.items) }
    {
        let mut parts = Vec::with_capacity(alloc, ids.len())?;
        for id in ids {
            let Some(place) = self.place(id) else {
                unreachable!();
            };
            parts.push(Part { id: *id, place })?;
        }
        Ok(parts)
    }
}
