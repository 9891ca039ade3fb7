//! Nodes by their ids, and derivations over them.
use crate::changes::path;
use bonsai::{Change, Commit, Edit};
use derive_step::{Deletions, DirIds, DirNodes, Done, HeldNodes, Job, Parent, Parents, derive};
use fsnode::{FsChild, FsEntry, Fsnode};
use node_table::{Node, NodeTable, Roots};
use object_id::Id;
use repo_path::RepoPath;
use std::alloc::Global;
use std::collections::BTreeMap;
use std::str;
use std::sync::Arc;
use std::test::Fail;
use unode::{Unode, UnodeChild, UnodeEntry, UnodeManifest};

// More than the directories of any tree here.
const MOST_DIRS: usize = 1_000;

// How a deleted node begins.
const DELETED: &[u8] = b"D\x01";

type Dirs = BTreeMap<RepoPath, DirNodes>;

/// All nodes that were derived.
#[derive(Drop)]
pub(crate) struct Store {
    alloc: Global,
    nodes: BTreeMap<Id, Vec<u8>>,
}

/// A changeset that was derived.
#[derive(Clone, Copy)]
pub(crate) struct Derived {
    pub(crate) id: Id,
    pub(crate) roots: Roots,
    /// How many nodes it gave.
    pub(crate) new: usize,
}

impl Store {
    pub(crate) fn new(alloc: Global) -> Store {
        Store {
            alloc,
            nodes: BTreeMap::new(alloc),
        }
    }

    /// The bytes of a node.
    pub(crate) fn bytes(&self, id: &Id) -> Result<&[u8], Fail> {
        match self.nodes.get(id) {
            Some(bytes) => Ok(bytes.as_slice()),
            None => Err(Fail::from("a node")),
        }
    }

    /// A table with all nodes.
    pub(crate) fn table(&self) -> Result<NodeTable, Fail> {
        let mut table = NodeTable::new(self.alloc);
        for bytes in self.nodes.values() {
            if table.insert(bytes.clone()?).is_err() {
                return Err(Fail::from("a table"));
            }
        }
        Ok(table)
    }

    pub(crate) fn fsnode(&self, id: &Id) -> Result<Fsnode, Fail> {
        let bytes = self.bytes(id)?;
        Ok(read_fsnode(self.alloc, bytes).ok_or("an fsnode")?)
    }

    pub(crate) fn manifest(&self, id: &Id) -> Result<UnodeManifest, Fail> {
        let bytes = self.bytes(id)?;
        Ok(read_manifest(self.alloc, bytes).ok_or("a manifest")?)
    }

    /// The ids of the nodes of a directory directly in another.
    pub(crate) fn dir_in(&self, dir: DirIds, name: &str) -> Result<DirIds, Fail> {
        let nodes = self.dir_nodes(&dir)?;
        Ok(dir_among(&nodes, name).ok_or("a directory")?)
    }

    /// The id of the unode of a file directly in a directory.
    pub(crate) fn file_in(&self, dir: DirIds, name: &str) -> Result<Id, Fail> {
        let manifest = self.manifest(&dir.unode)?;
        Ok(file_among(&manifest, name).ok_or("a file")?)
    }

    fn dir_nodes(&self, ids: &DirIds) -> Result<DirNodes, Fail> {
        let fsnode = self.fsnode(&ids.fsnode)?;
        let unode = self.manifest(&ids.unode)?;
        Ok(DirNodes {
            fsnode,
            unode,
            unode_id: ids.unode,
        })
    }

    // All directories of a parent, from its roots.
    fn parent(&self, roots: Roots) -> Result<Parent, Fail> {
        let top = root_of(&roots);
        let dirs = self.dirs_below(&top)?;
        let root = self.dir_nodes(&top)?;
        Ok(Parent { roots, root, dirs })
    }

    fn dirs_below(&self, top: &DirIds) -> Result<Dirs, Fail> {
        let mut dirs = BTreeMap::new(self.alloc);
        let mut left = Vec::new(self.alloc);
        self.push_dirs(&mut left, "", top)?;
        for _ in 0..MOST_DIRS {
            let Some((text, ids)) = left.pop() else {
                break;
            };
            self.push_dirs(&mut left, text.as_str(), &ids)?;
            self.put_dir(&mut dirs, text.as_str(), &ids)?;
        }
        Ok(dirs)
    }

    fn put_dir(&self, dirs: &mut Dirs, text: &str, ids: &DirIds) -> Result<(), Fail> {
        let path = path(self.alloc, text)?;
        let nodes = self.dir_nodes(ids)?;
        put_nodes(dirs, path, nodes)
    }

    // Appends the directories directly in one.
    fn push_dirs(
        &self,
        left: &mut Vec<(String, DirIds)>,
        dir: &str,
        ids: &DirIds,
    ) -> Result<(), Fail> {
        let nodes = self.dir_nodes(ids)?;
        for (child, other) in nodes.fsnode.entries.iter().zip(nodes.unode.entries.iter()) {
            if let Some(ids) = ids_of(child, other) {
                let text = joined(self.alloc, dir, child.name.as_bytes())?;
                left.push((text, ids))?;
            }
        }
        Ok(())
    }

    /// Derives a changeset on another, and keeps its nodes.
    pub(crate) fn derive(
        &mut self,
        commit: Commit,
        before: Option<&Derived>,
    ) -> Result<Derived, Fail> {
        let parent = match before {
            Some(before) => Some(self.parent(before.roots)?),
            None => None,
        };
        let deletions = self.deletions(parent.as_ref(), commit.changeset().edits())?;
        let parents = match parent {
            Some(parent) => Parents::One(parent),
            None => Parents::Absent,
        };
        self.derive_on(commit, parents, deletions)
    }

    /// Derives a merge of two others, at which these files go and come, and keeps its nodes.
    pub(crate) fn derive_merge(
        &mut self,
        commit: Commit,
        first: &Derived,
        second: &Derived,
        gone: Vec<RepoPath>,
        come: Vec<RepoPath>,
    ) -> Result<Derived, Fail> {
        let nodes = self.deleted_nodes()?;
        let deletions = Deletions { gone, come, nodes };
        let first = self.parent(first.roots)?;
        let second = self.parent(second.roots)?;
        self.derive_on(commit, Parents::Two(first, second), deletions)
    }

    fn derive_on(
        &mut self,
        commit: Commit,
        parents: Parents,
        deletions: Deletions,
    ) -> Result<Derived, Fail> {
        let id = commit.id();
        let done = done_of(self.alloc, commit, parents, deletions)?;
        let (roots, new) = (done.roots, done.nodes.len());
        self.keep(done)?;
        Ok(Derived { id, roots, new })
    }

    // What edits change of the files of a parent, and all deleted nodes.
    fn deletions(&self, parent: Option<&Parent>, edits: &[Edit]) -> Result<Deletions, Fail> {
        let files = match parent {
            Some(parent) => files_of(self.alloc, parent)?,
            None => Vec::new(self.alloc),
        };
        Ok(Deletions {
            gone: gone(self.alloc, &files, edits)?,
            come: come(self.alloc, &files, edits)?,
            nodes: self.deleted_nodes()?,
        })
    }

    fn deleted_nodes(&self) -> Result<HeldNodes, Fail> {
        let mut nodes = BTreeMap::new(self.alloc);
        for (id, bytes) in &self.nodes {
            if bytes.starts_with(DELETED) {
                let node = Node::of(bytes.clone()?);
                put_node(&mut nodes, *id, node)?;
            }
        }
        Ok(HeldNodes { nodes })
    }

    fn keep(&mut self, done: Done) -> Result<(), Fail> {
        for node in done.nodes {
            self.put(node.id(), node.into_bytes())?;
        }
        Ok(())
    }

    fn put(&mut self, id: Id, bytes: Vec<u8>) -> Result<(), Fail> {
        match self.nodes.insert(id, bytes) {
            Ok(_) => Ok(()),
            Err(_) => Err(Fail::from("memory")),
        }
    }
}

fn read_fsnode(alloc: Global, bytes: &[u8]) -> Option<Fsnode> {
    fsnode::decode(alloc, bytes).ok()
}

fn read_manifest(alloc: Global, bytes: &[u8]) -> Option<UnodeManifest> {
    match unode::decode(alloc, bytes) {
        Ok(Unode::Manifest(manifest)) => Some(manifest),
        Ok(Unode::File(_)) | Err(_) => None,
    }
}

fn dir_among(nodes: &DirNodes, name: &str) -> Option<DirIds> {
    for (child, other) in nodes.fsnode.entries.iter().zip(nodes.unode.entries.iter()) {
        if let Some(ids) = ids_of(child, other) {
            if child.name.as_bytes() == name.as_bytes() {
                return Some(ids);
            }
        }
    }
    None
}

fn file_among(manifest: &UnodeManifest, name: &str) -> Option<Id> {
    for child in &manifest.entries {
        if let UnodeEntry::File(id) = child.entry {
            if child.name.as_bytes() == name.as_bytes() {
                return Some(id);
            }
        }
    }
    None
}

fn put_nodes(dirs: &mut Dirs, path: RepoPath, nodes: DirNodes) -> Result<(), Fail> {
    match dirs.insert(path, nodes) {
        Ok(_) => Ok(()),
        Err(_) => Err(Fail::from("memory")),
    }
}

// A name in a directory, which is the root where it is empty.
fn joined(alloc: Global, dir: &str, name: &[u8]) -> Result<String, Fail> {
    let name = str::from_utf8(name).ok().ok_or("text")?;
    let mut text = String::from_str(alloc, dir)?;
    if !dir.is_empty() {
        text.push('/')?;
    }
    text.push_str(name)?;
    Ok(text)
}

fn done_of(
    alloc: Global,
    commit: Commit,
    parents: Parents,
    deletions: Deletions,
) -> Result<Done, Fail> {
    let commit = Arc::new(alloc, commit)?;
    let job = Job {
        number: 7,
        commit,
        parents,
        deletions,
    };
    Ok(derive(alloc, job)?)
}

/// The ids of a tree's root, as of a directory.
pub(crate) fn root_of(roots: &Roots) -> DirIds {
    DirIds {
        fsnode: roots.fsnode,
        unode: roots.unode,
    }
}

// The ids of a directory's nodes, by its two entries.
fn ids_of(child: &FsChild, other: &UnodeChild) -> Option<DirIds> {
    let fsnode = fsnode_id(&child.entry)?;
    let unode = unode_id(&other.entry)?;
    Some(DirIds { fsnode, unode })
}

fn put_node(nodes: &mut BTreeMap<Id, Node>, id: Id, node: Node) -> Result<(), Fail> {
    match nodes.insert(id, node) {
        Ok(_) => Ok(()),
        Err(_) => Err(Fail::from("memory")),
    }
}

// Appends the files directly in a directory.
fn push_files(
    alloc: Global,
    files: &mut Vec<RepoPath>,
    dir: &str,
    node: &Fsnode,
) -> Result<(), Fail> {
    for child in &node.entries {
        if let FsEntry::File { .. } = child.entry {
            let text = joined(alloc, dir, child.name.as_bytes())?;
            files.push(path(alloc, text.as_str())?)?;
        }
    }
    Ok(())
}

// All files of a parent.
fn files_of(alloc: Global, parent: &Parent) -> Result<Vec<RepoPath>, Fail> {
    let mut files = Vec::new(alloc);
    push_files(alloc, &mut files, "", &parent.root.fsnode)?;
    for (dir, nodes) in &parent.dirs {
        push_files(alloc, &mut files, dir.as_str(), &nodes.fsnode)?;
    }
    Ok(files)
}

fn is_under(path: &str, dir: &str) -> bool {
    match path.strip_prefix(dir) {
        Some(rest) => rest.starts_with("/"),
        None => false,
    }
}

// Whether an edit takes a file away: it deletes it, or sets a file above or under it.
fn takes_away(edit: &Edit, file: &RepoPath) -> bool {
    let (set, file) = (edit.path.as_str(), file.as_str());
    match edit.change {
        Change::Delete => set == file,
        Change::Set { .. } => is_under(file, set) || is_under(set, file),
    }
}

// The files that edits take away.
fn gone(alloc: Global, files: &[RepoPath], edits: &[Edit]) -> Result<Vec<RepoPath>, Fail> {
    let mut gone = Vec::new(alloc);
    for file in files {
        if edits.iter().any(|edit| takes_away(edit, file)) {
            gone.push(file.copy(alloc)?)?;
        }
    }
    Ok(gone)
}

fn is_set(edit: &Edit) -> bool {
    match edit.change {
        Change::Delete => false,
        Change::Set { .. } => true,
    }
}

// The files that are set where there were none.
fn come(alloc: Global, files: &[RepoPath], edits: &[Edit]) -> Result<Vec<RepoPath>, Fail> {
    let mut come = Vec::new(alloc);
    for edit in edits {
        if is_set(edit) && !files.contains(&edit.path) {
            come.push(edit.path.copy(alloc)?)?;
        }
    }
    Ok(come)
}

fn fsnode_id(entry: &FsEntry) -> Option<Id> {
    match entry {
        FsEntry::Directory { id, .. } => Some(*id),
        FsEntry::File { .. } => None,
    }
}

fn unode_id(entry: &UnodeEntry) -> Option<Id> {
    match entry {
        UnodeEntry::Directory(id) => Some(*id),
        UnodeEntry::File(_) => None,
    }
}
