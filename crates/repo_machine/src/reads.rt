//! Reads.
ghost use Rattle.std.specs.Prelude.{◌≡◌, true, option_map, IfOk, IfSome};
ghost use Rattle.std.specs.Arc.{arc_value};
ghost use Rattle.changeset_model.specs.Changeset.{id_of};
ghost use Rattle.history_model.specs.Bookmark.{head};
ghost use Rattle.history_model.specs.History.{known, changeset_of};
ghost use Rattle.history_model.specs.Journal.{is_header};
ghost use Rattle.changeset_store.specs.Store.{number_in};

use crate::machine::Machine;
use bonsai::Commit;
use changeset_store::ChangesetStore;
use object_id::Id;
use repo_path::BookName;
use std::alloc::AllocError;
use std::sync::Arc;

impl Machine {
    /// The head of a bookmark.
    pub fn head(&self, name: &BookName) -> Option<Id>
        ensures { result ≡ head self.now.history name.now }
    {
        self.heads.get(name).copied()?
    }

    /// The changeset with this id.
    pub fn changeset(&self, id: &Id) -> Option<&Commit>
        ensures found { option_map (λ c. c.now) result ≡ changeset_of (known self.now.history) id.now }
        ensures has_id { IfSome result (λ c. id_of c.now ≡ id.now) }
    {
        self.changesets.get(id)
    }

    /// The same, shared: it outlives the machine's borrow.
    pub fn shared_changeset(&self, id: &Id) -> Result<Option<Arc<Commit>>, AllocError>
        ensures { IfOk result (λ found. option_map arc_value found ≡ changeset_of (known self.now.history) id.now) }
    {
        self.changesets.get_shared(id)
    }

    /// The known changesets.
    pub fn changesets(&self) -> &ChangesetStore
        ensures known { result.now.known ≡ known self.now.history }
        ensures limits { is_header self.now.header ≡ true }
    {
        &self.changesets
    }

    /// The number of the changeset with this id: its place among the known ones.
    pub fn number_of(&self, id: &Id) -> Option<u32>
        ensures { result ≡ number_in (known self.now.history) id.now }
    {
        self.changesets.number_of(id)
    }
}
