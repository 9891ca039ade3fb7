//! The deleted nodes of some paths while they change.
ghost use Rattle.std.specs.Prelude.{◌≡◌, ◌++◌, ◌∷◌, [], ℕ, List, true, ◌&&◌, if◌then◌else◌, OnOk, IfOk};
ghost use Rattle.std.specs.Ordering.{eq_by_cmp};
ghost use Rattle.std.specs.BTreeMap.{btree_map_len, get};
ghost use Rattle.changeset_model.specs.Path.{Path, path_cmp, is_element};
ghost use Rattle.deleted_step.specs.Texts.{dir_of};
ghost use Rattle.deleted_step.specs.Opened.{entry_at};
ghost use Rattle.deleted_step.specs.Unfolded.{is_unfolded, link_in, entry_in};

use crate::opened::{Opened, set_entry};
use crate::path_text::parted_last;
use node_fields::Name;
use object_id::Id;
use repo_path::{RepoPath, has_elements, path_of};
use std::alloc::{AllocError, Global};
use std::collections::BTreeMap;

/// The root's node, and those of other paths.
#[derive(Drop)]
pub(crate) struct Unfolded {
    pub(crate) root: Opened,
    pub(crate) places: BTreeMap<RepoPath, Opened>,
}

/// What the node of a directory, or of the root, has under a name.
pub(crate) fn entry_under(
    alloc: Global,
    unfolded: &Unfolded,
    dir: Option<&RepoPath>,
    name: &str,
) -> Result<Option<Id>, AllocError>
    requires { is_element name.now ≡ true }
    ensures { IfOk result (λ id. id ≡ entry_in unfolded.now (dir_of dir.entry) name.now) }
{
    let name = Name::copy_of(alloc, name.as_bytes())?;
    Ok(entry_named(unfolded, dir, &name))
}

fn entry_named(unfolded: &Unfolded, dir: Option<&RepoPath>, name: &Name) -> Option<Id>
    ensures { result ≡ entry_in unfolded.now (dir_of dir.entry) name.now }
{
    match dir {
        None => entry_of(&unfolded.root, name),
        Some(dir) => {
            has_elements(dir);
            match unfolded.places.get(dir) {
                Some(opened) => entry_of(opened, name),
                None => None,
            }
        }
    }
}

fn entry_of(opened: &Opened, name: &Name) -> Option<Id>
    ensures { result ≡ entry_at opened.now name.now }
{
    match opened.entries.get(name) {
        Some(entry) => Some(entry.id),
        None => None,
    }
}

/// Sets the link of the node of a path, if it is there.
pub(crate) fn set_link(
    alloc: Global,
    unfolded: &mut Unfolded,
    path: &RepoPath,
    link: Option<Id>,
) -> Result<(), AllocError>
    ensures root { OnOk result (get path_cmp unfolded.new.places [] ≡ get path_cmp unfolded.old.places []) }
    ensures same { OnOk result ((d : Path) → is_unfolded unfolded.new d ≡ is_unfolded unfolded.old d) }
    ensures link { OnOk result ((d : Path) → link_in unfolded.new d ≡ (if is_unfolded unfolded.old d && eq_by_cmp path_cmp path.now d then link else link_in unfolded.old d)) }
    ensures entries { OnOk result ((d : Path) (n : List ℕ) → entry_in unfolded.new d n ≡ entry_in unfolded.old d n) }
{
    has_elements(path);
    if let Some(mut opened) = unfolded.places.remove(path) {
        opened.link = link;
        unfolded.places.insert(path.copy(alloc)?, opened)?;
    }
    Ok(())
}

/// Sets the entry of a path in the node of the directory above it, if that is there.
pub(crate) fn set_above(
    alloc: Global,
    unfolded: &mut Unfolded,
    path: &RepoPath,
    id: Option<Id>,
) -> Result<(), AllocError>
    ensures same { OnOk result ((d : Path) → is_unfolded unfolded.new d ≡ is_unfolded unfolded.old d) }
    ensures link { OnOk result ((d : Path) → link_in unfolded.new d ≡ link_in unfolded.old d) }
    ensures entries { OnOk result ((d : Path) (n : List ℕ) → entry_in unfolded.new d n ≡ (if is_unfolded unfolded.old d && eq_by_cmp path_cmp path.now (d ++ n ∷ []) then id else entry_in unfolded.old d n)) }
    ensures len { OnOk result (btree_map_len unfolded.new.places ≡ btree_map_len unfolded.old.places) }
{
    let (above, name) = parted_last(path.as_str());
    let name = Name::copy_of(alloc, name.as_bytes())?;
    match above {
        None => set_entry(&mut unfolded.root, name, id),
        Some(above) => set_in(unfolded, path_of(alloc, above)?, name, id),
    }
}

// Sets what the node of a directory has under a name, if it is there.
fn set_in(
    unfolded: &mut Unfolded,
    dir: RepoPath,
    name: Name,
    id: Option<Id>,
) -> Result<(), AllocError>
    ensures same { OnOk result ((d : Path) → is_unfolded unfolded.new d ≡ is_unfolded unfolded.old d) }
    ensures link { OnOk result ((d : Path) → link_in unfolded.new d ≡ link_in unfolded.old d) }
    ensures entries { OnOk result ((d : Path) (n : List ℕ) → entry_in unfolded.new d n ≡ (if is_unfolded unfolded.old d && eq_by_cmp path_cmp (dir ++ name ∷ []) (d ++ n ∷ []) then id else entry_in unfolded.old d n)) }
    ensures len { OnOk result (btree_map_len unfolded.new.places ≡ btree_map_len unfolded.old.places) }
{
    has_elements(&dir);
    if let Some(mut opened) = unfolded.places.remove(&dir) {
        set_entry(&mut opened, name, id)?;
        unfolded.places.insert(dir, opened)?;
    }
    Ok(())
}
