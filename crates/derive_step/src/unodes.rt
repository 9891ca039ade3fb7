//! The unode of a touched directory, and the unodes of the files that are set in it.
ghost use Rattle.std.specs.Prelude.{◌≡◌, ◌∷◌, ◌++◌, [], ℕ, List, Option, Some, None, if◌then◌else◌, bytes_eq, option_map, true, OnOk, IfOk};
ghost use Rattle.std.specs.Option.{option_to_list};
ghost use Rattle.std.specs.FinMap.{is_sorted};
ghost use Rattle.std.specs.Ordering.{nat_cmp};
ghost use Rattle.std.specs.Cmp.Lexicographic.{slice_cmp};
ghost use Rattle.std.specs.List.{dedup, list_all};
ghost use Rattle.byte_fields.specs.Bytes.{is_bytes};
ghost use Rattle.bonsai.specs.View.{edits_view};
ghost use Rattle.changeset_model.specs.Path.{path_cmp};
ghost use Rattle.manifest_model.specs.Fsnode.{are_entries};
ghost use Rattle.manifest_model.specs.Unode.{UnodeEntry as ModelEntry, UnodeFile, UnodeDir, is_unode_entry};
ghost use Rattle.manifest_laws.specs.Entries.{unode_entry_at};
ghost use Rattle.manifest_laws.specs.EntryEdits.{is_unode_file, file_parents};
ghost use Rattle.merge_laws.specs.Joined.{unode_joined};
ghost use Rattle.fsnode.specs.Parts.{children_seen as files_seen};
ghost use Rattle.node_fields.specs.Children.{children_seen as seen_by};
ghost use Rattle.unode.specs.Parts.{parents_seen, entry_seen, children_seen};
ghost use Rattle.unode.specs.Views.{manifest_seen};
ghost use Rattle.tree_fold.specs.View.{file_view};
ghost use Rattle.derive_step.specs.Places.{dir_of};
ghost use Rattle.derive_step.specs.Walk.{both_seen, entry_among};
ghost use Rattle.derive_step.specs.Join.{AreJoined, joined_by, made_at};
ghost use Rattle.derive_step.specs.Steps.{file_now, joined_unode, new_at, own_now, own_unode, set_nodes, unode_after, unode_before, unode_join, unode_made_in, unode_set, unodes_before};

use crate::join::made_in_dir;
use crate::kind::Kind;
use crate::made::{Made, MadeDirs};
use crate::named::file_named;
use crate::nodes::put_node;
use crate::place::child_in;
use crate::walk::children_after;
use bonsai::Edit;
use fsnode::FsChild;
use node_fields::Name;
use node_table::Node;
use object_id::Id;
use repo_path::RepoPath;
use std::alloc::{AllocError, Global};
use tree_fold::File;
use unode::{FileUnode, Parents, Unode, UnodeChild, UnodeEntry, UnodeManifest, encode};

/// The unodes that a changeset makes. Each file that it sets has one of its own, and each of which its parents have
/// different ones.
#[derive(Clone, Copy)]
pub(crate) struct Unodes<'a> {
    /// The id of the changeset.
    pub(crate) link: Id,
    /// The entries of the directory's fsnode at the changeset.
    pub(crate) files: &'a [FsChild],
}

impl<'a> Kind for Unodes<'a> {
    type Entry = UnodeEntry;

    ghost Seen = { ModelEntry };

    ghost seen = { entry_seen };

    ghost is_kept = { is_unode_entry };

    ghost is_file = { is_unode_file };

    ghost made = { λ m. entry_seen m.unode };

    ghost set = { λ k. unode_set k.link };

    ghost own = { λ k. own_unode k.link };

    ghost joined = { λ k d n. unode_join k.link (d ++ n ∷ []) (file_now (files_seen k.files.now) n) };

    ghost own_joined = { λ k d n. joined_unode k.link (d ++ n ∷ []) (file_now (files_seen k.files.now) n) };

    fn set(
        &self,
        alloc: Global,
        path: &RepoPath,
        file: File,
        before: (Option<UnodeEntry>, Option<UnodeEntry>),
        nodes: &mut Vec<Node>,
    ) -> Result<UnodeEntry, AllocError>
        ensures entry { IfOk result (λ entry. entry_seen entry ≡ unode_set self.now.link path.now (both_seen entry_seen before) (file_view file)) }
        ensures nodes { OnOk result (nodes.new.items ≡ nodes.old.items ++ own_unode self.now.link path.now (both_seen entry_seen before) (file_view file)) }
    {
        put_file(alloc, self.link, path, file, before, nodes)
    }

    fn join(
        &self,
        alloc: Global,
        dir: Option<&RepoPath>,
        name: &Name,
        both: (UnodeEntry, UnodeEntry),
        made_dirs: &MadeDirs,
        nodes: &mut Vec<Node>,
    ) -> Result<Option<UnodeEntry>, AllocError>
        ensures entry { IfOk result (λ entry. option_map entry_seen entry ≡ unode_join self.now.link (dir_of dir.entry ++ name.now ∷ []) (file_now (files_seen self.now.files.now) name.now) (made_at (unode_made_in made_dirs.now) (dir_of dir.entry ++ name.now ∷ [])) (entry_seen both.0) (entry_seen both.1)) }
        ensures nodes { OnOk result (nodes.new.items ≡ nodes.old.items ++ joined_unode self.now.link (dir_of dir.entry ++ name.now ∷ []) (file_now (files_seen self.now.files.now) name.now) (entry_seen both.0) (entry_seen both.1)) }
    {
        match &both.0 {
            UnodeEntry::File(id) => join_file(alloc, self, dir, name, id, &both.1, nodes),
            UnodeEntry::Directory(id) => join_dir(alloc, dir, name, id, &both.1, made_dirs),
        }
    }

    fn is_file(entry: &UnodeEntry) -> bool
        ensures { result ≡ is_unode_file (entry_seen entry.now) }
    {
        match entry {
            UnodeEntry::File(_) => true,
            UnodeEntry::Directory(_) => false,
        }
    }

    fn made(dir: &Made) -> UnodeEntry
        ensures { entry_seen result ≡ entry_seen dir.now.unode }
    {
        dir.unode
    }

    fn keep_the_rules(entry: &UnodeEntry)
        ensures { is_unode_entry (entry_seen entry.now) ≡ true }
    {
        match entry {
            UnodeEntry::File(id) | UnodeEntry::Directory(id) => {
                let _bytes = id.as_bytes();
            }
        }
    }
}

// The new unode of a file, from the entries of both parents.
fn put_file(
    alloc: Global,
    link: Id,
    path: &RepoPath,
    file: File,
    before: (Option<UnodeEntry>, Option<UnodeEntry>),
    nodes: &mut Vec<Node>,
) -> Result<UnodeEntry, AllocError>
    ensures entry { IfOk result (λ entry. entry_seen entry ≡ unode_set link path.now (both_seen entry_seen before) (file_view file)) }
    ensures nodes { OnOk result (nodes.new.items ≡ nodes.old.items ++ own_unode link path.now (both_seen entry_seen before) (file_view file)) }
{
    let (first, second) = before;
    let file = FileUnode {
        parents: parents_of(file_id(first), file_id(second)),
        content: file.content,
        kind: file.kind,
        path_hash: Id::of(path.as_str().as_bytes()),
        linknode: link,
    };
    let id = put_node(encode(alloc, &Unode::File(file))?, nodes)?;
    Ok(UnodeEntry::File(id))
}

// The entry of a file of the first parent, and what the second has.
fn join_file(
    alloc: Global,
    kind: &Unodes,
    dir: Option<&RepoPath>,
    name: &Name,
    id: &Id,
    second: &UnodeEntry,
    nodes: &mut Vec<Node>,
) -> Result<Option<UnodeEntry>, AllocError>
    ensures entry { (made : Option ModelEntry) → IfOk result (λ entry. option_map entry_seen entry ≡ unode_join kind.now.link (dir_of dir.entry ++ name.now ∷ []) (file_now (files_seen kind.now.files.now) name.now) made (UnodeFile id.now) (entry_seen second.now)) }
    ensures nodes { OnOk result (nodes.new.items ≡ nodes.old.items ++ joined_unode kind.now.link (dir_of dir.entry ++ name.now ∷ []) (file_now (files_seen kind.now.files.now) name.now) (UnodeFile id.now) (entry_seen second.now)) }
{
    match second {
        UnodeEntry::File(other) => join_files(alloc, kind, dir, name, (*id, *other), nodes),
        UnodeEntry::Directory(_) => Ok(Some(UnodeEntry::File(*id))),
    }
}

// The entry of a directory of the first parent, and what the second has.
fn join_dir(
    alloc: Global,
    dir: Option<&RepoPath>,
    name: &Name,
    id: &Id,
    second: &UnodeEntry,
    made_dirs: &MadeDirs,
) -> Result<Option<UnodeEntry>, AllocError>
    ensures { (new : Option ModelEntry) → IfOk result (λ entry. option_map entry_seen entry ≡ unode_joined new (made_at (unode_made_in made_dirs.now) (dir_of dir.entry ++ name.now ∷ [])) (Some (UnodeDir id.now)) (Some (entry_seen second.now))) }
{
    match second {
        UnodeEntry::File(_) => Ok(Some(UnodeEntry::Directory(*id))),
        UnodeEntry::Directory(other) => join_dirs(alloc, dir, name, (*id, *other), made_dirs),
    }
}

// The entry of a file that both parents have. Where its unodes differ, it has a new one.
fn join_files(
    alloc: Global,
    kind: &Unodes,
    dir: Option<&RepoPath>,
    name: &Name,
    ids: (Id, Id),
    nodes: &mut Vec<Node>,
) -> Result<Option<UnodeEntry>, AllocError>
    ensures entry { (made : Option ModelEntry) → IfOk result (λ entry. option_map entry_seen entry ≡ unode_join kind.now.link (dir_of dir.entry ++ name.now ∷ []) (file_now (files_seen kind.now.files.now) name.now) made (UnodeFile ids.0) (UnodeFile ids.1)) }
    ensures nodes { OnOk result (nodes.new.items ≡ nodes.old.items ++ joined_unode kind.now.link (dir_of dir.entry ++ name.now ∷ []) (file_now (files_seen kind.now.files.now) name.now) (UnodeFile ids.0) (UnodeFile ids.1)) }
{
    if ids.0 == ids.1 {
        return Ok(Some(UnodeEntry::File(ids.0)));
    }
    put_joined(alloc, kind, dir, name, ids, nodes)
}

// The new unode of a file of which both parents have different ones. There is none where it is no file at the changeset.
fn put_joined(
    alloc: Global,
    kind: &Unodes,
    dir: Option<&RepoPath>,
    name: &Name,
    ids: (Id, Id),
    nodes: &mut Vec<Node>,
) -> Result<Option<UnodeEntry>, AllocError>
    ensures entry { IfOk result (λ entry. option_map entry_seen entry ≡ new_at kind.now.link (dir_of dir.entry ++ name.now ∷ []) (file_now (files_seen kind.now.files.now) name.now) (UnodeFile ids.0) (UnodeFile ids.1)) }
    ensures nodes { OnOk result (nodes.new.items ≡ nodes.old.items ++ own_now kind.now.link (dir_of dir.entry ++ name.now ∷ []) (file_now (files_seen kind.now.files.now) name.now) (Some (UnodeFile ids.0), Some (UnodeFile ids.1))) }
{
    let Some(file) = file_named(kind.files, name) else {
        return Ok(None);
    };
    let Some(path) = child_in(alloc, dir, name)? else {
        return Ok(None);
    };
    let before = (Some(UnodeEntry::File(ids.0)), Some(UnodeEntry::File(ids.1)));
    let entry = put_file(alloc, kind.link, &path, file, before, nodes)?;
    Ok(Some(entry))
}

// The entry of a directory that both parents have. Where its unodes differ, it was made anew.
fn join_dirs(
    alloc: Global,
    dir: Option<&RepoPath>,
    name: &Name,
    ids: (Id, Id),
    made_dirs: &MadeDirs,
) -> Result<Option<UnodeEntry>, AllocError>
    ensures { (new : Option ModelEntry) → IfOk result (λ entry. option_map entry_seen entry ≡ unode_joined new (made_at (unode_made_in made_dirs.now) (dir_of dir.entry ++ name.now ∷ [])) (Some (UnodeDir ids.0)) (Some (UnodeDir ids.1))) }
{
    if ids.0 == ids.1 {
        return Ok(Some(UnodeEntry::Directory(ids.0)));
    }
    match made_in_dir(alloc, dir, name, made_dirs)? {
        Some(made) => Ok(Some(made.unode)),
        None => Ok(None),
    }
}

/// The unode of a directory as it was, and its id.
#[derive(Drop)]
pub(crate) struct UnodeBefore {
    pub(crate) id: Id,
    pub(crate) node: UnodeManifest,
}

/// The unode of a directory, or of the root, that a changeset makes, from those before of its parents. The unodes of the
/// files in the directory that are new at it are put to the nodes.
pub(crate) fn manifest_in(
    alloc: Global,
    first: Option<UnodeBefore>,
    second: Option<UnodeBefore>,
    kind: &Unodes,
    edits: &[Edit],
    dir: Option<&RepoPath>,
    made: &MadeDirs,
    nodes: &mut Vec<Node>,
) -> Result<UnodeManifest, AllocError>
    requires { is_sorted path_cmp (edits_view edits.now) ≡ true }
    ensures entries { IfOk result (λ node. (n : List ℕ) → unode_entry_at (manifest_seen node) n ≡ joined_by (unode_join kind.now.link (dir_of dir.entry ++ n ∷ []) (file_now (files_seen kind.now.files.now) n) (made_at (unode_made_in made.now) (dir_of dir.entry ++ n ∷ []))) (unode_after kind.now.link made.now (dir_of dir.entry) (edits_view edits.now) (unodes_before (option_map (λ b. manifest_seen b.node) first) (option_map (λ b. manifest_seen b.node) second)) n)) }
    ensures rising { IfOk result (λ node. are_entries (children_seen node.entries.items) ≡ true) }
    ensures parents { IfOk result (λ node. parents_seen node.parents ≡ dedup bytes_eq (option_to_list (option_map (λ b. b.id) first) ++ option_to_list (option_map (λ b. b.id) second))) }
    ensures link { IfOk result (λ node. node.linknode ≡ kind.now.link) }
    ensures nodes { OnOk result (AreJoined (λ n. joined_unode kind.now.link (dir_of dir.entry ++ n ∷ []) (file_now (files_seen kind.now.files.now) n)) (unode_after kind.now.link made.now (dir_of dir.entry) (edits_view edits.now) (unodes_before (option_map (λ b. manifest_seen b.node) first) (option_map (λ b. manifest_seen b.node) second))) (nodes.old.items ++ set_nodes kind.now.link made.now (dir_of dir.entry) (edits_view edits.now) (unodes_before (option_map (λ b. manifest_seen b.node) first) (option_map (λ b. manifest_seen b.node) second))) nodes.new.items) }
{
    let first_id = id_before(&first);
    let second_id = id_before(&second);
    let parents = parents_of(first_id, second_id);
    let first = children_before(alloc, first);
    let second = children_before(alloc, second);
    let entries = children_after(alloc, kind, first, second, edits, dir, made, nodes)?;
    Ok(manifest_of(parents, kind.link, entries))
}

// The unode of the directory before, if it was there.
fn id_before(before: &Option<UnodeBefore>) -> Option<Id>
    ensures { result ≡ option_map (λ b. b.id) before.now }
{
    match before {
        Some(before) => Some(before.id),
        None => None,
    }
}

// Those of both parents, each once.
fn parents_of(first: Option<Id>, second: Option<Id>) -> Parents
    ensures { parents_seen result ≡ dedup bytes_eq (option_to_list first ++ option_to_list second) }
{
    match (first, second) {
        (Some(first), Some(second)) => both_parents(first, second),
        (Some(first), None) => Parents::One(first),
        (None, second) => Parents::of(second),
    }
}

fn both_parents(first: Id, second: Id) -> Parents
    ensures { parents_seen result ≡ dedup bytes_eq (first ∷ second ∷ []) }
{
    if first == second {
        return Parents::One(first);
    }
    Parents::Two(first, second)
}

// A manifest by its parts, of which each id has 32 bytes.
fn manifest_of(parents: Parents, link: Id, entries: Vec<UnodeChild>) -> UnodeManifest
    requires rising { are_entries (children_seen entries.items) ≡ true }
    requires fields { list_all (λ e. is_unode_entry e.1) (children_seen entries.items) ≡ true }
    ensures { (parents_seen result.parents ≡ parents_seen parents) × (result.linknode ≡ link) × (result.entries ≡ entries) }
{
    let parents = whole_parents(parents);
    let linknode = whole_id(link);
    UnodeManifest {
        parents,
        linknode,
        entries,
    }
}

// The ids of parents have 32 bytes.
fn whole_parents(parents: Parents) -> Parents
    ensures same { parents_seen result ≡ parents_seen parents }
    ensures rule { list_all (is_bytes 32) (parents_seen result) ≡ true }
{
    match parents {
        Parents::Absent => Parents::Absent,
        Parents::One(id) => Parents::One(whole_id(id)),
        Parents::Two(first, second) => Parents::Two(whole_id(first), whole_id(second)),
    }
}

// An id has 32 bytes.
fn whole_id(id: Id) -> Id
    ensures same { result ≡ id }
    ensures rule { is_bytes 32 result ≡ true }
{
    let _bytes = id.as_bytes();
    id
}

// The entries of the node before, or none.
fn children_before(alloc: Global, before: Option<UnodeBefore>) -> Vec<UnodeChild>
    ensures found { (n : List ℕ) → entry_among entry_seen result.items n ≡ unode_before (option_map (λ b. manifest_seen b.node) before) n }
    ensures sorted { is_sorted (slice_cmp nat_cmp) (seen_by entry_seen result.items) ≡ true }
{
    match before {
        Some(before) => before.node.entries,
        None => Vec::new(alloc),
    }
}

// The id of a file's unode.
fn file_id(entry: Option<UnodeEntry>) -> Option<Id>
    ensures { option_to_list result ≡ file_parents (option_map entry_seen entry) }
{
    match entry {
        Some(entry) => id_of_file(&entry),
        None => None,
    }
}

fn id_of_file(entry: &UnodeEntry) -> Option<Id>
    ensures { option_to_list result ≡ file_parents (Some (entry_seen entry.now)) }
{
    match entry {
        UnodeEntry::File(id) => Some(*id),
        UnodeEntry::Directory(_) => None,
    }
}
