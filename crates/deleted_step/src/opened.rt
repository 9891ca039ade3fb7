//! A deleted node while it changes.
ghost use Rattle.std.specs.Prelude.{◌≡◌, ℕ, List, None, Some, if◌then◌else◌, OnOk, IfOk};
ghost use Rattle.std.specs.Ordering.{nat_cmp, eq_by_cmp};
ghost use Rattle.std.specs.Cmp.Lexicographic.{slice_cmp};
ghost use Rattle.std.specs.FinMap.{find as find_key};
ghost use Rattle.deleted_node.specs.Parts.{children_seen};
ghost use Rattle.deleted_node.specs.Views.{deleted_seen};
ghost use Rattle.deleted_step.specs.Opened.{IsOf, entry_at, among};

use deleted_node::{DeletedChild, DeletedEntry, DeletedNode};
use node_fields::Name;
use object_id::Id;
use std::alloc::{AllocError, Global};
use std::collections::BTreeMap;

/// The ids of nodes by their names.
pub(crate) type Entries = BTreeMap<Name, DeletedEntry>;

/// The deleted node of a path while it changes.
#[derive(Drop)]
pub(crate) struct Opened {
    pub(crate) link: Option<Id>,
    pub(crate) entries: Entries,
}

/// A node without a link and without entries.
pub(crate) fn nothing(alloc: Global) -> Opened
    ensures link { result.link ≡ None }
    ensures entries { (n : List ℕ) → entry_at result n ≡ None }
{
    Opened {
        link: None,
        entries: BTreeMap::new(alloc),
    }
}

/// A node as it is before it changes.
pub(crate) fn opened_of(alloc: Global, node: DeletedNode) -> Result<Opened, AllocError>
    ensures { IfOk result (λ o. IsOf o (deleted_seen node)) }
{
    let DeletedNode { link, entries } = node;
    let entries = by_names(alloc, entries)?;
    Ok(Opened { link, entries })
}

// Entries by their names. The first counts where a name stands twice.
fn by_names(alloc: Global, children: Vec<DeletedChild>) -> Result<Entries, AllocError>
    ensures { IfOk result (λ entries. (n : List ℕ) → among entries n ≡ find_key (slice_cmp nat_cmp) n (children_seen children.items)) }
{
    let mut left = children;
    let mut entries = BTreeMap::new(alloc);
    while let Some(child) = left.pop() {
        entries.insert(child.name, child.entry)?;
    }
    Ok(entries)
}

/// Sets what the node has under a name.
pub(crate) fn set_entry(opened: &mut Opened, name: Name, id: Option<Id>) -> Result<(), AllocError>
    ensures link { OnOk result (opened.new.link ≡ opened.old.link) }
    ensures entries { OnOk result ((n : List ℕ) → entry_at opened.new n ≡ (if eq_by_cmp (slice_cmp nat_cmp) name n then id else entry_at opened.old n)) }
{
    match id {
        Some(id) => {
            opened.entries.insert(name, DeletedEntry { id })?;
        }
        None => {
            opened.entries.remove(&name);
        }
    }
    Ok(())
}
