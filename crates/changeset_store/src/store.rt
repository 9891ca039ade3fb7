//! The store of known changesets.
ghost use Rattle.std.specs.Prelude.{◌≡◌, ℕ, ◌≤◌, ◌<◌, ◌+◌, ◌^◌, ◌++◌, ◌∷◌, [], ◌↔◌, true, false, length, map, reverse, option_map, Some, None, IsSome, IsNone, IsTrue, find, not, IsOk, OnOk, IfOk, IfSome, IfNone};
ghost use Rattle.std.specs.List.{AllByRecursion};
ghost use Rattle.std.specs.Option.{option_and_then};
ghost use Rattle.std.specs.Arc.{arc_value};
ghost use Rattle.ancestry.specs.Forest as forest;
ghost use Rattle.changeset_model.specs.Changeset as model;
ghost use Rattle.history_model.specs.History as history;
ghost use Rattle.history_model.specs.History.{with_id, each_id_once, changeset_of};
ghost use Rattle.history_model.specs.Chain.{HasParents, changesets, first_parent};
ghost use Rattle.history_model.specs.Past.{At, second_of};
ghost use Rattle.history_model.specs.Pushrebase as pushrebase;
ghost use Rattle.reply_model.specs.Reply.{is_merge};
ghost use Rattle.changeset_store.specs.Store.{number_in, parent_at, second_parent_at, known_at, changeset_at};
ghost use Rattle.changeset_store.specs.Pasts.{past_at, past_at_some};
ghost use Rattle.changeset_store.specs.Fork.{chain_at, following_at, fork_between, IsAncestor, IsFork};
ghost use Rattle.changeset_store.specs.Merges.{nearest_merge_at, IsBetween};
ghost use Rattle.changeset_store.specs.Shared.{values};

use crate::fork::Fork;
use ancestry::{Chain, Steps};
use bonsai::{Changeset, Commit};
use object_id::Id;
use std::alloc::{AllocError, Global};
use std::collections::HashMap;
use std::hash::RandomState;
use std::marker::{Brand, Model};
use std::sync::Arc;
use std::sync::ledger::{Blank, Ledger};

/// The most known changesets.
pub const MOST_CHANGESETS: usize = 2_147_483_648;

/// The known changesets of a repository, each once, numbered from 0 in the order in which they came. All parents of a
/// changeset came before it. The changesets are shared, so that whoever holds some needs no copy.
#[derive(Drop)]
pub struct ChangesetStore {
    commits: Vec<Arc<Commit>>,
    numbers: HashMap<Id, u32, RandomState>,
    chain: Chain,
    // Of each changeset the nearest one with two parents on its line of first parents, itself counted.
    merges: Vec<Option<u32>>,
}

impl Model for ChangesetStore {
    ghost use Rattle.changeset_store.specs.Store.{Store, coded_store};

    ghost Value = { Store };

    ghost coded = { coded_store };

    ghost use Rattle.std.specs.Prelude.{◌-◌, reverse};
    ghost use Rattle.std.specs.Vec.{vec_len, vec_capacity};
    ghost use Rattle.std.specs.HashMap.{get, spare};
    ghost use Rattle.changeset_store.specs.Numbers.{known_of, room_beside, AreNumbers};
    ghost use Rattle.changeset_store.specs.Shared.{values};

    ghost view = { λ s. record { known = known_of (values s.commits.items); room = room_beside (vec_len s.commits) (vec_capacity s.commits) (spare s.numbers) s.chain.room (vec_capacity s.merges - vec_len s.merges) } };

    ghost invariant = { λ s. AreNumbers (reverse (known_of (values s.commits.items))) (λ x. get ⟦<Id as PartialEq>⟧.eq s.numbers x) s.chain.parents s.merges.items };
}

impl ChangesetStore {
    /// A store without a changeset. Its table by ids is hashed with these keys, so that whoever doesn't know them can't choose
    /// ids which make it slow.
    pub fn new(alloc: Global, keys: RandomState) -> ChangesetStore
        ensures { result.known ≡ [] }
    {
        ChangesetStore {
            commits: Vec::new(alloc),
            numbers: HashMap::with_hasher(alloc, keys),
            chain: Chain::new(alloc),
            merges: Vec::new(alloc),
        }
    }

    /// How many changesets are known, at most 2,147,483,648.
    pub fn len(&self) -> u32
        ensures len { result ≡ length self.now.known }
        ensures few { length self.now.known ≤ MOST_CHANGESETS }

        // Each stands under its id, and once, after its parents.
        ensures ids { map with_id (changesets self.now.known) ≡ self.now.known }
        ensures distinct { each_id_once self.now.known ≡ self.now.known }
        ensures parents_known { HasParents (reverse self.now.known) }
    {
        self.commits.len() as u32
    }

    /// Whether no changeset is known.
    pub fn is_empty(&self) -> bool
        ensures { IsTrue result ↔ (self.now.known ≡ []) }
    {
        self.commits.is_empty()
    }

    /// The number of the changeset with this id.
    pub fn number_of(&self, id: &Id) -> Option<u32>
        ensures number { result ≡ number_in self.now.known id.now }
        ensures known { IsSome result ↔ (history.is_known self.now.known id.now ≡ true) }
        ensures in_range { IfSome result (λ number. number < length self.now.known) }
        ensures has_id { IfSome result (λ number. model.id_of (changeset_at self.now.known number) ≡ id.now) }
        // No two have one id.
        ensures once { each_id_once self.now.known ≡ self.now.known }
    {
        self.numbers.get(id).copied()
    }

    /// Whether a changeset has this id.
    pub fn is_known(&self, id: &Id) -> bool
        ensures { result ≡ history.is_known self.now.known id.now }
    {
        self.numbers.contains_key(id)
    }

    /// The changeset of a number.
    pub fn at(&self, number: u32) -> &Commit
        requires { number < length self.now.known }
        ensures { result.now ≡ changeset_at self.now.known number }
    {
        &self.commits[number as usize]
    }

    /// The changeset with this id.
    pub fn get(&self, id: &Id) -> Option<&Commit>
        ensures found { option_map (λ c. c.now) result ≡ changeset_of self.now.known id.now }
        ensures known { IsSome result ↔ (history.is_known self.now.known id.now ≡ true) }
        ensures has_id { IfSome result (λ c. model.id_of c.now ≡ id.now) }
        ensures once { each_id_once self.now.known ≡ self.now.known }
    {
        let number = self.number_of(id)?;
        Some(self.at(number))
    }

    /// The same, shared: it outlives the store's borrow.
    pub fn get_shared(&self, id: &Id) -> Result<Option<Arc<Commit>>, AllocError>
        ensures { IfOk result (λ found. option_map arc_value found ≡ changeset_of self.now.known id.now) }
    {
        match self.number_of(id) {
            Some(number) => Ok(Some(self.shared_at(number)?)),
            None => Ok(None),
        }
    }

    /// Makes room for more changesets, so that they are added without allocation. It answers want of memory also where
    /// there would be more than 2,147,483,648 changesets, which the capacity of a journal doesn't let come about.
    pub fn reserve(&mut self, more: u32) -> Result<(), AllocError>
        ensures known { self.new.known ≡ self.old.known }
        ensures kept { self.old.room ≤ self.new.room }
        ensures room { OnOk result (more ≤ self.new.room) }
        ensures ready { more ≤ self.old.room → IsOk result }
    {
        if more as usize > MOST_CHANGESETS - self.commits.len() {
            return Err(AllocError);
        }
        self.commits.try_reserve(more as usize)?;
        self.numbers.try_reserve(more as usize)?;
        self.chain.reserve(more)?;
        self.merges.try_reserve(more as usize)?;
        Ok(())
    }

    /// Adds a changeset, and answers its number.
    pub fn add(&mut self, commit: Arc<Commit>) -> u32
        requires room { 0 < self.old.room }
        requires new { history.is_known self.old.known (model.id_of (arc_value commit)) ≡ false }
        requires parents { AllByRecursion (λ p. history.is_known self.old.known p ≡ true) (arc_value commit).parents }
        ensures known { self.new.known ≡ self.old.known ++ with_id (arc_value commit) ∷ [] }
        ensures number { result ≡ length self.old.known }
        ensures room { self.old.room ≤ self.new.room + 1 }
    {
        let parent = self.parent_of(&commit);
        let merge = self.merge_of(&commit, parent);
        let number = self.chain.add_reserved(parent);
        let Ok(_) = self.numbers.insert(commit.id(), number) else {
            unreachable!();
        };
        self.commits.push_reserved(commit);
        self.merges.push_reserved(merge);
        number
    }

    // The number of the first parent.
    fn parent_of(&self, commit: &Commit) -> Option<u32>
        ensures number { result ≡ option_and_then (number_in self.now.known) (first_parent commit.now) }
        ensures in_range { IfSome result (λ number. number < length self.now.known) }
    {
        let parent = commit.changeset().parents().first()?;
        self.number_of(parent)
    }

    /// Where the chain of a draft parts from that of a head, if they have a changeset in common. It takes no memory, and
    /// reads at most 4 ancestors for each binary digit of the length of the longer chain.
    pub fn fork(&self, head: &Id, draft: &Id) -> Option<Fork>
        requires head { history.is_known self.now.known head.now ≡ true }
        requires draft { history.is_known self.now.known draft.now ≡ true }
        ensures fork { option_map (fork_between self.now.known) result ≡ pushrebase.fork self.now.known head.now draft.now }
        ensures is_fork { IfSome result (IsFork self.now.known) }
        ensures of_head { IfSome result (λ f. (known_at self.now.known f.head).id ≡ head.now) }
        ensures of_draft { IfSome result (λ f. (known_at self.now.known f.draft).id ≡ draft.now) }
        ensures of_root { IfSome result (λ f. number_in self.now.known (known_at self.now.known f.root).id ≡ Some f.root) }
    {
        let head = self.number_of(head).unwrap();
        let draft = self.number_of(draft).unwrap();
        let root = nearest_uncounted::<Brand>(&self.chain, head, draft, Blank::new(1))?;
        Some(Fork { root, head, draft })
    }

    /// Whether a changeset is in the chain of another one, in which it is itself too. It takes no memory, and reads at most
    /// one ancestor for each binary digit of the chain's length.
    pub fn is_ancestor(&self, above: u32, last: u32) -> bool
        requires above_known { above < length self.now.known }
        requires known { last < length self.now.known }
        ensures in_chain { result ≡ history.is_known (chain_at self.now.known last) (known_at self.now.known above).id }
        // What follows an ancestor of both is what follows it up to the first, and what follows that.
        ensures joined { IsTrue result → (root : ℕ) → IsAncestor self.now.known root above →
            following_at self.now.known root last ≡ following_at self.now.known root above ++ following_at self.now.known above last }
    {
        is_ancestor_uncounted::<Brand>(&self.chain, above, last, Blank::new(1))
    }

    /// How many changesets of the draft's chain follow the root, at once.
    pub fn stack_length(&self, fork: &Fork) -> u32
        requires { IsFork self.now.known fork.now }
        ensures { result ≡ length (fork_between self.now.known fork.now).stack }
    {
        self.distance(fork.root, fork.draft)
    }

    /// How many changesets of the head's chain follow the root, at once.
    pub fn range_length(&self, fork: &Fork) -> u32
        requires { IsFork self.now.known fork.now }
        ensures { result ≡ length (fork_between self.now.known fork.now).range }
    {
        self.distance(fork.root, fork.head)
    }

    /// The changesets of the draft's chain that follow the root, oldest first, in one allocation of their number.
    pub fn stack<'a>(&'a self, alloc: Global, fork: &Fork) -> Result<Vec<&'a Changeset>, AllocError>
        requires { IsFork self.now.known fork.now }
        ensures { IfOk result (λ stack. map (λ c. c.now) stack.items ≡ (fork_between self.now.known fork.now).stack) }
    {
        self.following(alloc, fork.root, fork.draft)
    }

    /// The same, shared: it outlives the store's borrow.
    pub fn shared_stack(&self, alloc: Global, fork: &Fork) -> Result<Vec<Arc<Commit>>, AllocError>
        requires { IsFork self.now.known fork.now }
        ensures { IfOk result (λ stack. values stack.items ≡ (fork_between self.now.known fork.now).stack) }
    {
        self.following_shared(alloc, fork.root, fork.draft)
    }

    /// The number of a changeset's first parent, if it has one.
    pub fn parent(&self, number: u32) -> Option<u32>
        requires { number < length self.now.known }
        ensures parent { result ≡ parent_at self.now.known number }
        ensures earlier { IfSome result (λ parent. parent < number) }
    {
        self.chain.parent(number)
    }

    /// The number of a changeset's second parent, if it has two. Chains don't go through it.
    pub fn second_parent(&self, number: u32) -> Option<u32>
        requires { number < length self.now.known }
        ensures parent { result ≡ second_parent_at self.now.known number }
        ensures earlier { IfSome result (λ parent. parent < number) }
        // It is there where the changeset has two parents.
        ensures id { option_map (λ n. (known_at self.now.known n).id) result ≡ second_of (changeset_at self.now.known number).parents }
        // A past is made of the pasts of both parents.
        ensures past { past_at self.now.known number ≡ At (known_at self.now.known number) (past_at_some self.now.known (parent_at self.now.known number)) (past_at_some self.now.known result) }
    {
        // The store keeps its rules.
        let _commits = &self.commits;
        self.second_parent_of(self.at(number))
    }

    // The number of the second parent.
    fn second_parent_of(&self, commit: &Commit) -> Option<u32>
        ensures { result ≡ option_and_then (number_in self.now.known) (second_of commit.now.parents) }
    {
        let parent = commit.changeset().parents().get(1)?;
        self.number_of(parent)
    }

    /// The number of the nearest changeset with two parents, from this one along first parents, itself counted. It is kept,
    /// so that none is gone through.
    pub fn nearest_merge(&self, number: u32) -> Option<u32>
        requires { number < length self.now.known }
        ensures nearest { result ≡ nearest_merge_at self.now.known number }
        ensures ancestor { IfSome result (λ m. IsAncestor self.now.known m number) }
        ensures earlier { IfSome result (λ m. m ≤ number) }
        ensures merge { IfSome result (λ m. is_merge (changeset_at self.now.known m) ≡ true) }
        // Of what follows an ancestor none has two parents, unless it came after that ancestor.
        ensures no_other { (above : ℕ) → IsAncestor self.now.known above number → IfSome result (λ m. m ≤ above) → find is_merge (following_at self.now.known above number) ≡ None }
        // An ancestor that came before it is one of its own.
        ensures between { IfSome result (λ m. (above : ℕ) → IsAncestor self.now.known above number → above < m → IsBetween self.now.known above m number) }
    {
        self.merges[number as usize]
    }

    /// The number of the changeset that 2^exponent changesets of a chain follow up to its last, or `None` where the chain is
    /// no longer than that. It reads one ancestor, and goes through none.
    pub fn jump(&self, last: u32, exponent: u32) -> Option<u32>
        requires known { last < length self.now.known }
        requires few { exponent < 31 }
        ensures none { IfNone result (length (chain_at self.now.known last) ≤ 2 ^ exponent) }
        ensures ancestor { IfSome result (λ above. IsAncestor self.now.known above last) }
        ensures distance { IfSome result (λ above. length (following_at self.now.known above last) ≡ 2 ^ exponent) }
        ensures earlier { IfSome result (λ above. above < last) }
        // An ancestor of an ancestor is one.
        ensures further { IfSome result (λ above. (n : ℕ) → IsAncestor self.now.known last n → IsAncestor self.now.known above n) }
    {
        self.chain.jump(last, exponent)
    }

    /// The number of the changeset before the last of a chain, unless the last is this ancestor itself. So the changesets that
    /// follow the ancestor are gone through newest first, without a list of them.
    pub fn previous(&self, ancestor: u32, last: u32) -> Option<u32>
        requires { IsAncestor self.now.known ancestor last }
        ensures none { IfNone result (following_at self.now.known ancestor last ≡ []) }
        ensures itself { IfNone result (ancestor ≡ last) }
        ensures ancestor { IfSome result (λ p. IsAncestor self.now.known ancestor p) }
        ensures earlier { IfSome result (λ p. p < last) }
        ensures newest { IfSome result (λ p. following_at self.now.known ancestor last ≡ following_at self.now.known ancestor p ++ changeset_at self.now.known last ∷ []) }
    {
        self.chain.previous(ancestor, last)
    }

    // How many changesets of the chain of a number follow an ancestor.
    fn distance(&self, ancestor: u32, last: u32) -> u32
        requires { IsAncestor self.now.known ancestor last }
        ensures { result ≡ length (following_at self.now.known ancestor last) }
    {
        self.chain.distance(ancestor, last)
    }

    // These changesets, oldest first.
    fn following<'a>(
        &'a self,
        alloc: Global,
        ancestor: u32,
        last: u32,
    ) -> Result<Vec<&'a Changeset>, AllocError>
        requires { IsAncestor self.now.known ancestor last }
        ensures { IfOk result (λ found. map (λ c. c.now) found.items ≡ following_at self.now.known ancestor last) }
    {
        let count = self.chain.distance(ancestor, last);
        let mut found = Vec::with_capacity(alloc, count as usize)?;
        let mut number = last;
        for _ in 0..count {
            found.push_reserved(self.at(number).changeset());
            number = self.chain.parent(number).unwrap();
        }
        found.reverse();
        Ok(found)
    }

    // The same, shared.
    fn following_shared(
        &self,
        alloc: Global,
        ancestor: u32,
        last: u32,
    ) -> Result<Vec<Arc<Commit>>, AllocError>
        requires { IsAncestor self.now.known ancestor last }
        ensures { IfOk result (λ found. values found.items ≡ following_at self.now.known ancestor last) }
    {
        let count = self.chain.distance(ancestor, last);
        let mut found = Vec::with_capacity(alloc, count as usize)?;
        let mut number = last;
        for _ in 0..count {
            found.push_reserved(self.shared_at(number)?);
            number = self.chain.parent(number).unwrap();
        }
        found.reverse();
        Ok(found)
    }

    /// The changeset of a number, shared: it outlives the store's borrow.
    pub fn shared_at(&self, number: u32) -> Result<Arc<Commit>, AllocError>
        requires { number < length self.now.known }
        ensures { IfOk result (λ shared. arc_value shared ≡ changeset_at self.now.known number) }
    {
        Arc::try_clone(&self.commits[number as usize])
    }
}

// The last common member of two chains, where nobody reads the count of steps.
fn nearest_uncounted<L: Ledger>(chain: &Chain, a: u32, b: u32, blank: Blank) -> Option<u32>
    requires name { blank.name ≡ L.name }
    requires parts { blank.parts ≡ L.parts }
    requires some { 0 < blank.parts }
    requires a_known { a < length chain.now.parents }
    requires b_known { b < length chain.now.parents }
    ensures nearest { result ≡ forest.nearest chain.now.parents a b }
    ensures of_a { IfSome result (λ n. IsTrue (forest.is_member n (forest.chain chain.now.parents a))) }
    ensures of_b { IfSome result (λ n. IsTrue (forest.is_member n (forest.chain chain.now.parents b))) }
{
    let mut steps = Steps::<L>::new(blank);
    chain.nearest(a, b, &mut steps)
}

// Whether a member is an ancestor of another one, where nobody reads the count of steps.
fn is_ancestor_uncounted<L: Ledger>(chain: &Chain, a: u32, x: u32, blank: Blank) -> bool
    requires name { blank.name ≡ L.name }
    requires parts { blank.parts ≡ L.parts }
    requires some { 0 < blank.parts }
    requires a_known { a < length chain.now.parents }
    requires x_known { x < length chain.now.parents }
    ensures is_ancestor { result ≡ forest.is_member a (forest.chain chain.now.parents x) }
    ensures earlier { forest.AreEarlier chain.now.parents }
{
    let mut steps = Steps::<L>::new(blank);
    chain.is_ancestor(a, x, &mut steps)
}
