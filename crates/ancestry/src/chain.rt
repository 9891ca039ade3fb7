//! The forest of changesets. The line of a member is the member, its parent and so on up to one without a parent; its
//! chain is the same members, oldest first.
//!
//! Each member keeps its ancestors at the distances 1, 2, 4 and so on, as many as its line has.
ghost use Rattle.std.specs.Prelude.{◌≡◌, ◌≢◌, ℕ, ◌+◌, ◌*◌, ◌<◌, ◌≤◌, ◌^◌, ◌∷◌, ◌++◌, [], length, drop, slice_get, Some, IsOk, IsTrue, OnOk, OnErr, IfOk, IfSome, IfNone, MatchOption};
ghost use Rattle.std.specs.Option.{option_map_or};
ghost use Rattle.ancestry.specs.Forest as forest;
ghost use Rattle.ancestry.specs.Members.{IsAbove, AreJumps};

use crate::Steps;
use std::alloc::{AllocError, Global};
use std::marker::Model;
use std::sync::ledger::Ledger;

// The most ancestors at the distances 2, 4, 8 and so on that a line of 2,147,483,648 members has.
const MOST_JUMPS: usize = 30;

// A changeset: its parent, how many members its line has, and where its ancestors at the distances 2, 4, 8 and so on
// begin in the list of all these.
#[derive(Clone, Copy)]
struct Member {
    parent: Option<u32>,
    depth: u32,
    first: usize,
}

// The ancestors of a new member at the distances 2, 4, 8 and so on: the first `count` of the array.
#[derive(Clone, Copy)]
struct Jumps {
    ancestors: [u32; MOST_JUMPS],
    count: usize,
}

/// Changesets that are numbered from 0 in the order in which they came, each after its parent, at most 2,147,483,648.
#[derive(Drop)]
pub struct Chain {
    members: Vec<Member>,
    jumps: Vec<u32>,
}

impl Model for Chain {
    ghost use Rattle.std.specs.Prelude.{vec_len, vec_capacity, ◌-◌};
    ghost use Rattle.ancestry.specs.Forest.{Forest, coded_forest};

    ghost Value = { Forest };

    ghost coded = { coded_forest };

    ghost use Rattle.ancestry.specs.Members.{parents_of, room_of, IsChain};

    ghost view = { λ c. record { parents = parents_of c.members.items; room = room_of (vec_capacity c.members - vec_len c.members) (vec_capacity c.jumps - vec_len c.jumps) } };

    ghost invariant = { λ c. IsChain c.members.items c.jumps.items };
}

impl Chain {
    /// A forest without a member.
    pub fn new(alloc: Global) -> Chain
        ensures { result.parents ≡ [] }
    {
        Chain {
            members: Vec::new(alloc),
            jumps: Vec::new(alloc),
        }
    }

    /// How many members there are.
    pub fn len(&self) -> u32
        ensures members { result ≡ length self.now.parents }
        ensures few { result ≤ 2 ^ 31 }
        ensures earlier { forest.AreEarlier self.now.parents }
    {
        self.members.len() as u32
    }

    /// The parent of a member, if it has one.
    pub fn parent(&self, x: u32) -> Option<u32>
        requires { x < length self.now.parents }
        ensures parent { slice_get self.now.parents x ≡ Some result }
        ensures earlier { IfSome result (λ p. p < x) }
        ensures line { forest.line self.now.parents x ≡ x ∷ option_map_or (forest.line self.now.parents) result [] }
    {
        self.members[x as usize].parent
    }

    // How many members the line of a member has.
    fn depth(&self, x: u32) -> u32
        requires { x < length self.now.parents }
        ensures line { result ≡ length (forest.line self.now.parents x) }
        ensures positive { 0 < result }
        ensures few { result ≤ 2 ^ 31 }
        ensures earlier { forest.AreEarlier self.now.parents }
    {
        self.members[x as usize].depth
    }

    // The parent of a member, if it has one, as the one step that this reading is.
    fn climb_one<L: Ledger>(&self, x: u32, steps: &mut Steps<L>) -> Option<u32>
        requires { x < length self.now.parents }
        ensures parent { slice_get self.now.parents x ≡ Some result }
        ensures step { steps.new ≡ steps.old + 1 }
    {
        steps.tick();
        self.parent(x)
    }

    // The ancestor of a member at the distance of this power of 2.
    fn ancestor(&self, x: u32, exponent: u32) -> u32
        requires known { x < length self.now.parents }
        requires there { 2 ^ exponent < length (forest.line self.now.parents x) }
        ensures { IsAbove self.now.parents (forest.line self.now.parents x) (2 ^ exponent) result }
    {
        let member = self.members[x as usize];
        match exponent.checked_sub(1) {
            Some(further) => self.jumps[member.first + further as usize],
            None => member.parent.unwrap(),
        }
    }

    // The same, as the one step that this reading is.
    fn climb<L: Ledger>(&self, x: u32, exponent: u32, steps: &mut Steps<L>) -> u32
        requires known { x < length self.now.parents }
        requires there { 2 ^ exponent < length (forest.line self.now.parents x) }
        ensures above { IsAbove self.now.parents (forest.line self.now.parents x) (2 ^ exponent) result }
        ensures step { steps.new ≡ steps.old + 1 }
    {
        steps.tick();
        self.ancestor(x, exponent)
    }

    /// The ancestor of a member that stands 2^exponent above it, or `None` where its chain is no longer than that. It reads
    /// one ancestor that the member keeps.
    pub fn jump(&self, x: u32, exponent: u32) -> Option<u32>
        requires known { x < length self.now.parents }
        requires few { exponent < 31 }
        ensures above { MatchOption result (length (forest.line self.now.parents x) ≤ 2 ^ exponent) (IsAbove self.now.parents (forest.line self.now.parents x) (2 ^ exponent)) }
        ensures in_chain { IfSome result (λ a. IsTrue (forest.is_member a (forest.chain self.now.parents x))) }
        ensures distance { IfSome result (λ a. length (forest.following a (forest.chain self.now.parents x)) ≡ 2 ^ exponent) }
        ensures earlier { IfSome result (λ a. a < x) }
        ensures parents { forest.AreEarlier self.now.parents }
        // An ancestor of an ancestor is one.
        ensures further { IfSome result (λ a. (y : ℕ) → IsTrue (forest.is_member x (forest.chain self.now.parents y)) → IsTrue (forest.is_member a (forest.chain self.now.parents y))) }
    {
        if self.depth(x) <= 1 << exponent {
            return None;
        }
        Some(self.ancestor(x, exponent))
    }

    /// Makes room for so many members more. The members stay, and no room is lost. It fails only where there is too
    /// little room yet.
    pub fn reserve(&mut self, more: u32) -> Result<(), AllocError>
        ensures parents { self.new.parents ≡ self.old.parents }
        ensures kept { self.old.room ≤ self.new.room }
        ensures ok { OnOk result (more ≤ self.new.room) }
        ensures succeeds { more ≤ self.old.room → IsOk result }
    {
        self.members.reserve(more as usize)?;
        self.jumps.reserve(more as usize * MOST_JUMPS)
    }

    // The ancestors that a new member of this parent has at the distances 2, 4, 8 and so on, each by two jumps of half the
    // distance.
    fn jumps_past(&self, parent: u32) -> Jumps
        requires known { parent < length self.now.parents }
        requires few { length self.now.parents < 2 ^ 31 }
        ensures jumps { AreJumps self.now.parents (forest.line self.now.parents parent) result.ancestors result.count }
        ensures size { length result.ancestors ≡ MOST_JUMPS }
    {
        let farthest = self.depth(parent);
        let mut jumps = Jumps {
            ancestors: [0; MOST_JUMPS],
            count: 0,
        };
        let mut last = parent;
        let mut distance = 1;
        while distance <= farthest / 2 {
            last = self.ancestor(last, jumps.count as u32);
            jumps.ancestors[jumps.count] = last;
            jumps.count += 1;
            distance *= 2;
        }
        jumps
    }

    // How many members the line of a new member of this parent will have.
    fn depth_below(&self, parent: Option<u32>) -> u32
        requires { IfSome parent (λ p. p < length self.now.parents) }
        ensures { result ≡ length (option_map_or (forest.line self.now.parents) parent []) + 1 }
    {
        match parent {
            Some(parent) => self.depth(parent) + 1,
            None => 1,
        }
    }

    // The jumps of a new member of this parent.
    fn jumps_below(&self, parent: Option<u32>) -> Jumps
        requires known { IfSome parent (λ p. p < length self.now.parents) }
        requires few { length self.now.parents < 2 ^ 31 }
        ensures jumps { AreJumps self.now.parents (option_map_or (forest.line self.now.parents) parent []) result.ancestors result.count }
        ensures size { length result.ancestors ≡ MOST_JUMPS }
    {
        match parent {
            Some(parent) => self.jumps_past(parent),
            None => Jumps {
                ancestors: [0; MOST_JUMPS],
                count: 0,
            },
        }
    }

    /// Adds a member of this parent where there is room, and gives its number.
    pub fn add_reserved(&mut self, parent: Option<u32>) -> u32
        requires parent { IfSome parent (λ p. p < length self.old.parents) }
        requires few { length self.old.parents < 2 ^ 31 }
        requires room { 0 < self.old.room }
        ensures number { result ≡ length self.old.parents }
        ensures parents { self.new.parents ≡ self.old.parents ++ parent ∷ [] }
        ensures room { self.old.room ≤ self.new.room + 1 }
    {
        let number = self.len();
        let first = self.jumps.len();
        let depth = self.depth_below(parent);
        let jumps = self.jumps_below(parent);
        let Ok(_) = self
            .jumps
            .extend_from_slice(&jumps.ancestors[..jumps.count])
        else {
            unreachable!();
        };
        self.members.push_reserved(Member {
            parent,
            depth,
            first,
        });
        number
    }

    /// Adds a member of this parent, and gives its number. It fails only where there is no room, and then adds nothing.
    pub fn add(&mut self, parent: Option<u32>) -> Result<u32, AllocError>
        requires parent { IfSome parent (λ p. p < length self.old.parents) }
        requires few { length self.old.parents < 2 ^ 31 }
        ensures number { IfOk result (λ n. n ≡ length self.old.parents) }
        ensures parents { OnOk result (self.new.parents ≡ self.old.parents ++ parent ∷ []) }
        ensures room { self.old.room ≤ self.new.room + 1 }
        ensures succeeds { 0 < self.old.room → IsOk result }
        ensures err { OnErr result (self.new.parents ≡ self.old.parents) }
    {
        self.reserve(1)?;
        Ok(self.add_reserved(parent))
    }

    // The member that stands so much above, in at most as many steps as the distance has binary digits.
    fn above<L: Ledger>(&self, x: u32, distance: u32, steps: &mut Steps<L>) -> u32
        requires known { x < length self.now.parents }
        requires there { distance < length (forest.line self.now.parents x) }
        requires few { distance < 2 ^ 31 }
        ensures above { IsAbove self.now.parents (forest.line self.now.parents x) distance result }
        ensures cost { (digits : ℕ) → distance < 2 ^ digits → steps.new ≤ steps.old + digits }
    {
        let mut member = x;
        let mut left = distance;
        let mut exponent = 31;
        while left > 0 {
            exponent -= 1;
            if 1 << exponent <= left {
                member = self.climb(member, exponent, steps);
                left -= 1 << exponent;
            }
        }
        member
    }

    // The oldest member of the line of the one that isn't in the line of the other, where they are two of one depth. The
    // two jump together, by ever shorter distances, as long as they come to two members.
    fn last_apart<L: Ledger>(&self, a: u32, b: u32, steps: &mut Steps<L>) -> u32
        requires a_known { a < length self.now.parents }
        requires b_known { b < length self.now.parents }
        requires level { length (forest.line self.now.parents a) ≡ length (forest.line self.now.parents b) }
        requires apart { a ≢ b }
        ensures known { result < length self.now.parents }
        ensures parent { slice_get self.now.parents result ≡ Some (forest.nearest self.now.parents a b) }
        ensures cost { (digits : ℕ) → length (forest.line self.now.parents a) ≤ 2 ^ digits → steps.new ≤ steps.old + 2 * digits }
    {
        let mut depth = self.depth(a);
        let mut left = a;
        let mut right = b;
        let mut exponent = 31;
        while exponent > 0 {
            exponent -= 1;
            if depth <= 1 << exponent {
                continue;
            }
            let higher_left = self.climb(left, exponent, steps);
            let higher_right = self.climb(right, exponent, steps);
            if higher_left == higher_right {
                continue;
            }
            left = higher_left;
            right = higher_right;
            depth -= 1 << exponent;
        }
        left
    }

    /// The last common member of the chains of two members, if they have one. It takes no memory. A step is one reading of
    /// an ancestor that a member keeps; there are at most 4 for each binary digit of the length of the longer chain.
    pub fn nearest<L: Ledger>(&self, a: u32, b: u32, steps: &mut Steps<L>) -> Option<u32>
        requires a_known { a < length self.now.parents }
        requires b_known { b < length self.now.parents }
        ensures nearest { result ≡ forest.nearest self.now.parents a b }
        ensures of_a { IfSome result (λ n. IsTrue (forest.is_member n (forest.chain self.now.parents a))) }
        ensures of_b { IfSome result (λ n. IsTrue (forest.is_member n (forest.chain self.now.parents b))) }
        ensures cost { (digits : ℕ) → length (forest.chain self.now.parents a) < 2 ^ digits → length (forest.chain self.now.parents b) < 2 ^ digits → steps.new ≤ steps.old + 4 * digits }
    {
        let (depth_a, depth_b) = (self.depth(a), self.depth(b));
        let left = self.above(a, depth_a.saturating_sub(depth_b), steps);
        let right = self.above(b, depth_b.saturating_sub(depth_a), steps);
        if left == right {
            return Some(left);
        }
        let last = self.last_apart(left, right, steps);
        self.climb_one(last, steps)
    }

    /// Whether a member is in the chain of another one, which has itself in its chain too. It takes no memory. A step is one
    /// reading of an ancestor that a member keeps; there is at most 1 for each binary digit of the length of that chain.
    pub fn is_ancestor<L: Ledger>(&self, a: u32, x: u32, steps: &mut Steps<L>) -> bool
        requires a_known { a < length self.now.parents }
        requires x_known { x < length self.now.parents }
        ensures is_ancestor { result ≡ forest.is_member a (forest.chain self.now.parents x) }
        ensures earlier { forest.AreEarlier self.now.parents }
        ensures cost { (digits : ℕ) → length (forest.chain self.now.parents x) < 2 ^ digits → steps.new ≤ steps.old + digits }
    {
        let (depth_a, depth_x) = (self.depth(a), self.depth(x));
        depth_a <= depth_x && self.above(x, depth_x - depth_a, steps) == a
    }

    /// How many members of the chain of a member come after an ancestor of it. It goes through none of them.
    pub fn distance(&self, ancestor: u32, x: u32) -> u32
        requires known { x < length self.now.parents }
        requires ancestor { IsTrue (forest.is_member ancestor (forest.chain self.now.parents x)) }
        ensures distance { result ≡ length (forest.following ancestor (forest.chain self.now.parents x)) }
        ensures earlier { forest.AreEarlier self.now.parents }
    {
        self.depth(x) - self.depth(ancestor)
    }

    /// The parent of a member, unless that member is this ancestor of it itself. So the members that come after the ancestor
    /// are gone through newest first.
    pub fn previous(&self, ancestor: u32, x: u32) -> Option<u32>
        requires known { x < length self.now.parents }
        requires ancestor { IsTrue (forest.is_member ancestor (forest.chain self.now.parents x)) }
        ensures none { IfNone result (forest.following ancestor (forest.chain self.now.parents x) ≡ []) }
        ensures ancestor { IfSome result (λ p. IsTrue (forest.is_member ancestor (forest.chain self.now.parents p))) }
        ensures earlier { IfSome result (λ p. p < x) }
        ensures newest { IfSome result (λ p. forest.following ancestor (forest.chain self.now.parents x) ≡ forest.following ancestor (forest.chain self.now.parents p) ++ x ∷ []) }
    {
        if self.distance(ancestor, x) == 0 {
            return None;
        }
        self.parent(x)
    }
}
