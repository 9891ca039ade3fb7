//! A changeset.
ghost use Rattle.std.specs.Prelude.{◌≡◌, ◌↔◌, ◌∷◌, [], map, option_map, IfOk, IsTrue, None};
ghost use Rattle.std.specs.Cmp.{partial_equiv_from_equiv};
ghost use Rattle.changeset_model.specs.Changeset as model;
ghost use Rattle.history_model.specs.Pushrebase.{on_parent};
ghost use Rattle.bonsai.specs.Equal.{changeset_eq, changeset_eq_equiv};
ghost use Rattle.bonsai.specs.Kept.{IsKept};
ghost use Rattle.bonsai.specs.Making.{KeepsOnParent};
ghost use Rattle.bonsai.specs.Versions.{version_view};
ghost use Rattle.bonsai.specs.View.{change_view, edits_view, fields_view, parts_view};

use crate::change::Change;
use crate::edit::Edit;
use crate::edit_list::{are_equal, change_among, paths_of};
use crate::encoding::encode;
use crate::fields::Fields;
use crate::moment::Date;
use crate::told::{Parts, Told};
use crate::version::Version;
use object_id::Id;
use repo_path::RepoPath;
use std::alloc::{AllocError, Global};
use std::fmt;
use std::marker::Model;
use std::sync::Arc;

/// A changeset: the version of its encoding, at most two parents, the author, when and with which message, and what it
/// changes, by rising paths. It keeps the rules of its fields, so it has one encoding, and no path that it sets lies under
/// another. Contracts see the definitions' changeset.
///
/// A changeset and what is made of it on other parents share what they tell in memory.
#[derive(Drop)]
pub struct Changeset {
    pub(crate) version: Version,
    pub(crate) parents: Vec<Id>,
    pub(crate) date: Date,
    pub(crate) told: Arc<Told>,
}

impl Model for Changeset {
    ghost use Rattle.changeset_model.specs.Changeset as model;
    ghost use Rattle.changeset_model.specs.Codes.{coded_changeset};

    ghost Value = { model.Changeset };

    ghost coded = { coded_changeset };

    ghost use Rattle.std.specs.Arc.{arc_value};
    ghost use Rattle.bonsai.specs.Kept.{IsKept};
    ghost use Rattle.bonsai.specs.View.{view_of};

    ghost view = { λ c. view_of c.version c.parents.items c.date (arc_value c.told) };

    ghost invariant = { λ c. IsKept (view_of c.version c.parents.items c.date (arc_value c.told)) };
}

impl Changeset {
    // The changeset of fields that keep their rules.
    pub(crate) fn of_fields(alloc: Global, fields: Fields) -> Result<Changeset, AllocError>
        requires { IsKept (fields_view fields) }
        ensures { IfOk result (λ c. c ≡ fields_view fields) }
    {
        let date = Date {
            seconds: fields.seconds,
            offset: fields.offset,
        };
        let told = Told {
            author: fields.author,
            message: fields.message,
            edits: fields.edits,
        };
        Ok(Changeset {
            version: fields.version,
            parents: fields.parents,
            date,
            told: Arc::new(alloc, told)?,
        })
    }

    // Its parts, borrowed.
    pub(crate) fn parts(&self) -> Parts<'_>
        ensures parts { parts_view result ≡ self.now }
        ensures rules { IsTrue (model.is_changeset (parts_view result)) }
    {
        Parts {
            version: self.version,
            parents: self.parents.as_slice(),
            date: self.date,
            told: &self.told,
        }
    }

    /// The ids of the parents, at most two.
    pub fn parents(&self) -> &[Id]
        ensures parents { result.now ≡ self.now.parents }
        ensures rules { IsTrue (model.is_changeset self.now) }
    {
        self.parents.as_slice()
    }

    /// What is done, by rising paths.
    pub fn edits(&self) -> &[Edit]
        ensures edits { edits_view result.now ≡ self.now.changes }
        ensures rules { IsTrue (model.is_changeset self.now) }
        ensures apart { model.self_conflict self.now ≡ None }
    {
        self.told.edits.as_slice()
    }

    /// What is done at a path.
    pub fn change_at(&self, path: &RepoPath) -> Option<&Change>
        ensures { option_map (λ c. change_view c.now) result ≡ model.change_at self.now path.now }
    {
        change_among(self.told.edits.as_slice(), path)
    }

    /// The paths that are set or deleted, rising, in memory of their own.
    pub fn touched_paths(&self, alloc: Global) -> Result<Vec<RepoPath>, AllocError>
        ensures edits { IfOk result (λ paths. paths.items ≡ map (λ e. e.0) self.now.changes) }
        ensures touched { IfOk result (λ paths. paths.items ≡ model.touched_paths (self.now ∷ [])) }
    {
        paths_of(alloc, self.told.edits.as_slice())
    }

    /// The id: the SHA-256 of the spelling.
    pub fn id(&self, alloc: Global) -> Result<Id, AllocError>
        ensures { IfOk result (λ id. id ≡ model.id_of self.now) }
    {
        let bytes = encode(alloc, self)?;
        Ok(Id::of(bytes.as_slice()))
    }

    /// The same changeset. What it tells is shared.
    pub fn copy(&self, alloc: Global) -> Result<Changeset, AllocError>
        ensures { IfOk result (λ c. c ≡ self.now) }
    {
        let parents = Vec::from_slice(alloc, self.parents.as_slice())?;
        self.sharing(parents, self.date)
    }

    /// The same changeset with this one parent. What it tells is shared. One of the second version is dated at the moment.
    /// Its copy sources must then name this parent, as they do where it has one parent.
    pub fn with_parent(
        &self,
        alloc: Global,
        parent: Id,
        moment: u64,
    ) -> Result<Changeset, AllocError>
        requires { KeepsOnParent self.now }
        ensures { IfOk result (λ c. c ≡ on_parent parent moment self.now) }
    {
        let parents = sole_parent(alloc, &parent)?;
        self.sharing(parents, self.date.landed(self.version, moment))
    }

    // The same but for the parents and the date.
    fn sharing(&self, parents: Vec<Id>, date: Date) -> Result<Changeset, AllocError>
        requires { IsKept (record self.now { parents = parents.items; seconds = date.seconds; offset = date.offset }) }
        ensures { IfOk result (λ c. c ≡ record self.now { parents = parents.items; seconds = date.seconds; offset = date.offset }) }
    {
        Ok(Changeset {
            version: self.version,
            parents,
            date,
            told: Arc::try_clone(&self.told)?,
        })
    }

    /// The version of its encoding.
    pub fn version(&self) -> Version
        ensures { version_view result ≡ self.now.version }
    {
        self.version
    }
}

impl fmt::Debug for Changeset {
    fn fmt<W: fmt::Write>(&self, f: &mut fmt::Formatter<W>) -> fmt::Result {
        f.debug_struct("Changeset")
            .field("version", &self.version)
            .field("parents", &self.parents)
            .field("date", &self.date)
            .field("told", &*self.told)
            .finish()
    }
}

impl PartialEq for Changeset {
    ghost eq = { changeset_eq };

    ghost laws = { partial_equiv_from_equiv changeset_eq_equiv };

    /// Whether they are one changeset. It takes no memory.
    fn eq(&self, other: &Changeset) -> bool
        ensures test { result ≡ changeset_eq self.now other.now }
        ensures exact { IsTrue result ↔ (self.now ≡ other.now) }
    {
        are_same(self.parts(), other.parts())
    }
}

impl Eq for Changeset {
    ghost laws = { changeset_eq_equiv };
}

// A list of one parent, which keeps the rule of parents.
fn sole_parent(alloc: Global, parent: &Id) -> Result<Vec<Id>, AllocError>
    ensures parents { IfOk result (λ ids. ids.items ≡ parent.now ∷ []) }
    ensures rule { IsTrue (model.are_parents (parent.now ∷ [])) }
{
    // Its bytes keep the rule of an id.
    let _bytes = parent.as_bytes();
    Ok(Vec::from_array(alloc, [*parent])?)
}

// Whether all parts are the same.
fn are_same(left: Parts<'_>, right: Parts<'_>) -> bool
    ensures { result ≡ changeset_eq (parts_view left.entry) (parts_view right.entry) }
{
    left.version.to_byte() == right.version.to_byte()
        && left.parents == right.parents
        && left.told.author == right.told.author
        && left.date.seconds == right.date.seconds
        && left.date.offset == right.date.offset
        && left.told.message == right.told.message
        && are_equal(left.told.edits.as_slice(), right.told.edits.as_slice())
}
