//! The entries of a directory by rising names, gone through in this order while some of them change.
ghost use Rattle.std.specs.Prelude.{◌≡◌, ◌∷◌, ◌++◌, [], ℕ, List, true, false, if◌then◌else◌, None, option_map, OnOk, IfOk};
ghost use Rattle.std.specs.List.{list_all};
ghost use Rattle.std.specs.Ordering.{nat_cmp, eq_by_cmp};
ghost use Rattle.std.specs.Cmp.Lexicographic.{slice_cmp};
ghost use Rattle.std.specs.FinMap.Entries.{below_all};
ghost use Rattle.changeset_model.specs.Path.{is_element};
ghost use Rattle.node_fields.specs.Children.{children_seen};
ghost use Rattle.derive_step.specs.Walk.{both_seen};
ghost use Rattle.derive_step.specs.Merge.{AreAfter, AreBefore, AreMerges, IsMerge, comes_before, entries_in, entry_in, is_before, stands_under, whole};

use crate::kind::Kind;
use node_fields::{Child, Name};
use std::alloc::{AllocError, Global};
use std::collections::VecDeque;

/// Entries by rising names: those that were gone through, and those that are left.
#[derive(Drop)]
pub(crate) struct Merge<E> {
    pub(crate) done: Vec<Child<E>>,
    pub(crate) left: VecDeque<Child<E>>,
}

/// The entries of both parents.
#[derive(Drop)]
pub(crate) struct Merges<E> {
    pub(crate) first: Merge<E>,
    pub(crate) second: Merge<E>,
}

/// Entries of which none was gone through.
pub(crate) fn all_left<E>(alloc: Global, children: Vec<Child<E>>) -> Merge<E>
    ensures done { result.done.items ≡ [] }
    ensures left { result.left.items ≡ children.items }
{
    Merge {
        done: Vec::new(alloc),
        left: VecDeque::from(children),
    }
}

/// Goes on to a name, and takes its entry out, if there is one.
pub(crate) fn take<K: Kind>(
    entries: &mut Merge<K::Entry>,
    name: &[u8],
) -> Result<Option<K::Entry>, AllocError>
    requires merge { IsMerge K.is_kept (children_seen K.seen entries.old.done.items) (children_seen K.seen entries.old.left.items) }
    requires before { is_before name.now (children_seen K.seen entries.old.done.items) ≡ true }
    ensures merge { OnOk result (IsMerge K.is_kept (children_seen K.seen entries.new.done.items) (children_seen K.seen entries.new.left.items)) }
    ensures before { OnOk result (is_before name.now (children_seen K.seen entries.new.done.items) ≡ true) }
    ensures after { OnOk result (below_all (slice_cmp nat_cmp) name.now (children_seen K.seen entries.new.left.items) ≡ true) }
    ensures found { IfOk result (λ entry. option_map K.seen entry ≡ entry_in K.seen entries.old name.now) }
    ensures without { OnOk result ((n : List ℕ) → entry_in K.seen entries.new n ≡ (if eq_by_cmp (slice_cmp nat_cmp) name.now n then None else entry_in K.seen entries.old n)) }
{
    pass::<K>(entries, name)?;
    if !is_next(&entries.left, name) {
        return Ok(None);
    }
    let Some(child) = entries.left.pop_front() else {
        unreachable!()
    };
    Ok(Some(child.entry))
}

// Goes through those that come before a name.
fn pass<K: Kind>(entries: &mut Merge<K::Entry>, name: &[u8]) -> Result<(), AllocError>
    requires merge { IsMerge K.is_kept (children_seen K.seen entries.old.done.items) (children_seen K.seen entries.old.left.items) }
    requires before { is_before name.now (children_seen K.seen entries.old.done.items) ≡ true }
    ensures merge { OnOk result (IsMerge K.is_kept (children_seen K.seen entries.new.done.items) (children_seen K.seen entries.new.left.items)) }
    ensures before { OnOk result (is_before name.now (children_seen K.seen entries.new.done.items) ≡ true) }
    ensures same { OnOk result (whole K.seen entries.new ≡ whole K.seen entries.old) }
    ensures next { OnOk result (comes_before name.now entries.new.left.items ≡ false) }
{
    entries.done.try_reserve(entries.left.len())?;
    'passing: while is_next_before(&entries.left, name) {
        let Some(child) = entries.left.pop_front() else {
            unreachable!()
        };
        push_child::<K>(&mut entries.done, child)?;
    }
    Ok(())
}

// Whether the first that is left comes before a name.
fn is_next_before<E>(left: &VecDeque<Child<E>>, name: &[u8]) -> bool
    ensures { result ≡ comes_before name.now left.now.items }
{
    match left.front() {
        Some(child) => child.name.as_bytes().cmp(name).is_lt(),
        None => false,
    }
}

// Whether the first that is left stands under a name.
fn is_next<E>(left: &VecDeque<Child<E>>, name: &[u8]) -> bool
    ensures { result ≡ stands_under name.now left.now.items }
{
    match left.front() {
        Some(child) => child.name.as_bytes() == name,
        None => false,
    }
}

/// Puts an entry in under a name that was gone on to.
pub(crate) fn put<K: Kind>(
    alloc: Global,
    entries: &mut Merge<K::Entry>,
    name: &[u8],
    entry: Option<K::Entry>,
) -> Result<(), AllocError>
    requires name { is_element name.now ≡ true }
    requires merge { IsMerge K.is_kept (children_seen K.seen entries.old.done.items) (children_seen K.seen entries.old.left.items) }
    requires before { is_before name.now (children_seen K.seen entries.old.done.items) ≡ true }
    requires after { below_all (slice_cmp nat_cmp) name.now (children_seen K.seen entries.old.left.items) ≡ true }
    ensures merge { OnOk result (IsMerge K.is_kept (children_seen K.seen entries.new.done.items) (children_seen K.seen entries.new.left.items)) }
    ensures done { OnOk result (entries.new.done.items ≡ entries.old.done.items) }
    ensures put { OnOk result ((n : List ℕ) → entry_in K.seen entries.new n ≡ (if eq_by_cmp (slice_cmp nat_cmp) name.now n then option_map K.seen entry else entry_in K.seen entries.old n)) }
{
    if let Some(entry) = entry {
        let name = Name::copy_of(alloc, name)?;
        entries.left.push_front(Child { name, entry })?;
    }
    Ok(())
}

/// Goes on to a name in the entries of both parents, and takes theirs out.
pub(crate) fn take_both<K: Kind>(
    entries: &mut Merges<K::Entry>,
    name: &[u8],
) -> Result<(Option<K::Entry>, Option<K::Entry>), AllocError>
    requires merge { AreMerges K.seen K.is_kept entries.old }
    requires before { AreBefore K.seen name.now entries.old }
    ensures merge { OnOk result (AreMerges K.seen K.is_kept entries.new) }
    ensures before { OnOk result (AreBefore K.seen name.now entries.new) }
    ensures after { OnOk result (AreAfter K.seen name.now entries.new) }
    ensures found { IfOk result (λ taken. both_seen K.seen taken ≡ entries_in K.seen entries.old name.now) }
    ensures without { OnOk result ((n : List ℕ) → entries_in K.seen entries.new n ≡ (if eq_by_cmp (slice_cmp nat_cmp) name.now n then (None, None) else entries_in K.seen entries.old n)) }
{
    let first = take::<K>(&mut entries.first, name)?;
    let second = take::<K>(&mut entries.second, name)?;
    Ok((first, second))
}

/// Puts entries in under a name that was gone on to in those of both parents.
pub(crate) fn put_both<K: Kind>(
    alloc: Global,
    entries: &mut Merges<K::Entry>,
    name: &[u8],
    both: (Option<K::Entry>, Option<K::Entry>),
) -> Result<(), AllocError>
    requires name { is_element name.now ≡ true }
    requires merge { AreMerges K.seen K.is_kept entries.old }
    requires before { AreBefore K.seen name.now entries.old }
    requires after { AreAfter K.seen name.now entries.old }
    ensures merge { OnOk result (AreMerges K.seen K.is_kept entries.new) }
    ensures first { OnOk result (entries.new.first.done.items ≡ entries.old.first.done.items) }
    ensures second { OnOk result (entries.new.second.done.items ≡ entries.old.second.done.items) }
    ensures put { OnOk result ((n : List ℕ) → entries_in K.seen entries.new n ≡ (if eq_by_cmp (slice_cmp nat_cmp) name.now n then both_seen K.seen both else entries_in K.seen entries.old n)) }
{
    let (first, second) = both;
    put::<K>(alloc, &mut entries.first, name, first)?;
    put::<K>(alloc, &mut entries.second, name, second)?;
    Ok(())
}

/// The entries, once what is left of them is gone through too.
pub(crate) fn finished<K: Kind>(
    entries: Merge<K::Entry>,
) -> Result<Vec<Child<K::Entry>>, AllocError>
    requires { IsMerge K.is_kept (children_seen K.seen entries.done.items) (children_seen K.seen entries.left.items) }
    ensures whole { IfOk result (λ children. children_seen K.seen children.items ≡ whole K.seen entries) }
    ensures named { IfOk result (λ children. list_all (λ e. is_element e.0) (children_seen K.seen children.items) ≡ true) }
    ensures kept { IfOk result (λ children. list_all (λ e. K.is_kept e.1) (children_seen K.seen children.items) ≡ true) }
{
    let Merge { mut done, mut left } = entries;
    done.try_reserve(left.len())?;
    'finishing: while let Some(child) = left.pop_front() {
        push_child::<K>(&mut done, child)?;
    }
    Ok(done)
}

// Appends an entry. Its name and its fields keep their rules.
fn push_child<K: Kind>(
    children: &mut Vec<Child<K::Entry>>,
    child: Child<K::Entry>,
) -> Result<(), AllocError>
    ensures pushed { OnOk result (children_seen K.seen children.new.items ≡ children_seen K.seen children.old.items ++ (child.name, K.seen child.entry) ∷ []) }
    ensures element { is_element child.name ≡ true }
    ensures fields { K.is_kept (K.seen child.entry) ≡ true }
{
    let _element = child.name.as_bytes();
    K::keep_the_rules(&child.entry);
    children.push(child)?;
    Ok(())
}
