//! Changesets with their parents, and the trees of each.
ghost use Rattle.std.specs.Prelude.{◌≡◌, ◌<◌, ◌∷◌, ◌++◌, [], List, map, length, reverse, Some, IfOk, OnOk, OnErr};
ghost use Rattle.std.specs.Option.{option_and_then};
ghost use Rattle.byte_fields.specs.Bytes.{Id};
ghost use Rattle.changeset_model.specs.Changeset as model;
ghost use Rattle.history_model.specs.History.{with_id};
ghost use Rattle.history_model.specs.Chain.{first_parent};
ghost use Rattle.history_model.specs.Past.{second_of};
ghost use Rattle.history_model.specs.Tree.{files_in, files_of};
ghost use Rattle.merge_tree.specs.View.{flats_view, member_view, members_view};
ghost use Rattle.merge_tree.specs.Lineage as lines;

use crate::flat::{Flat, FlatFile};
use crate::merged::merged;
use bonsai::Changeset;
use std::alloc::{AllocError, Global};
use std::marker::Model;

/// The most changesets of a lineage.
pub const MOST_MEMBERS: usize = 2_147_483_648;

/// The places of a changeset's parents in a lineage. A place that was not given before stands for no parent.
#[derive(Clone, Copy, Debug, PartialEq, Eq)]
pub struct Parents {
    pub first: Option<u32>,
    pub second: Option<u32>,
}

// A changeset with the places of its parents.
#[derive(Drop)]
pub(crate) struct Member {
    pub(crate) parents: Parents,
    pub(crate) change: Changeset,
}

/// Changesets in the order in which they were added, each with the places of its parents. The place is all that tells a
/// parent, so no id is worked out.
#[derive(Drop)]
pub struct Lineage {
    members: Vec<Member>,
}

impl Model for Lineage {
    ghost use Rattle.std.specs.Prelude.{List};
    ghost use Rattle.std.specs.Coded.{coded_list};
    ghost use Rattle.merge_tree.specs.Lineage as lines;
    ghost use Rattle.merge_tree.specs.View.{members_view};

    ghost Value = { List lines.Member };

    ghost coded = { coded_list lines.coded_member };

    ghost view = { λ l. members_view l.members.items };
}

impl Lineage {
    /// A lineage without a changeset. It takes no memory.
    pub fn new(alloc: Global) -> Lineage
        ensures none { result ≡ [] }
        ensures known { result ≡ lines.lineage_of [] }
    {
        Lineage {
            members: Vec::new(alloc),
        }
    }

    /// How many changesets were added.
    pub fn len(&self) -> usize
        ensures { result ≡ length self.now }
    {
        self.members.len()
    }

    /// Adds a copy of a changeset, and answers its place.
    pub fn add(
        &mut self,
        alloc: Global,
        parents: Parents,
        change: &Changeset,
    ) -> Result<u32, AllocError>
        requires few { length self.old < MOST_MEMBERS }
        ensures added { OnOk result (self.new ≡ self.old ++ lines.member_of change.now parents.first parents.second ∷ []) }
        ensures place { IfOk result (λ at. at ≡ length self.old) }
        // Where the places are those of the parents, the lineage goes on as the history does.
        ensures known { OnOk result ((cs : List model.Changeset) → self.old ≡ lines.lineage_of cs → parents.first ≡ option_and_then (lines.place_of cs) (first_parent change.now) → parents.second ≡ option_and_then (lines.place_of cs) (second_of change.now.parents) → self.new ≡ lines.lineage_of (cs ++ change.now ∷ [])) }
        ensures err { OnErr result (self.new ≡ self.old) }
    {
        let place = self.members.len() as u32;
        let change = change.copy(alloc)?;
        self.members.push(Member { parents, change })?;
        Ok(place)
    }

    /// The files of the changeset at a place. It works out the trees of all that were added before.
    pub fn tree_of(&self, alloc: Global, at: u32) -> Result<Flat, AllocError>
        requires { at < length self.now }
        ensures past { IfOk result (λ flat. flat ≡ files_in (lines.past_at self.now at)) }
        ensures known { IfOk result (λ flat. (cs : List model.Changeset) (x : Id) → self.now ≡ lines.lineage_of cs → lines.place_of cs x ≡ Some at → flat ≡ files_of (map with_id cs) x) }
    {
        let mut trees = trees_of(alloc, &self.members[..=at as usize])?;
        Ok(trees.remove(at as usize))
    }
}

// The tree of each.
fn trees_of(alloc: Global, members: &[Member]) -> Result<Vec<Flat>, AllocError>
    ensures { IfOk result (λ trees. trees.items ≡ lines.trees_among (reverse (members_view members.now))) }
{
    let mut trees = Vec::with_capacity(alloc, members.len())?;
    for member in members {
        let tree = tree_on(alloc, trees.as_slice(), member)?;
        trees.push(tree)?;
    }
    Ok(trees)
}

// The tree of a changeset over the trees of those before it.
fn tree_on(alloc: Global, trees: &[Flat], member: &Member) -> Result<Flat, AllocError>
    ensures { IfOk result (λ tree. (older : List lines.Member) → trees.now ≡ lines.trees_among older → tree ≡ files_in (lines.past_on_members (member_view member.now) older)) }
{
    let first = files_at(trees, member.parents.first);
    let second = files_at(trees, member.parents.second);
    merged(alloc, first, second, &member.change)
}

// The files of the tree at a place, or none.
fn files_at(trees: &[Flat], at: Option<u32>) -> &[FlatFile]
    ensures { flats_view result.now ≡ lines.tree_among trees.now at }
{
    let Some(at) = at else {
        return &[];
    };
    match trees.get(at as usize) {
        Some(tree) => tree.files(),
        None => &[],
    }
}
