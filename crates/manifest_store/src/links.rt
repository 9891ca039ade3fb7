//! The last change of a path on the line of a settled changeset, by the links of its nodes, and where merges are by its members.
ghost use Rattle.std.specs.Prelude.{◌≡◌, ◌<◌, ◌≤◌, true, IfSome, None, Some, is_some, if◌then◌else◌, length};
ghost use Rattle.changeset_model.specs.Path.{Path};
ghost use Rattle.changeset_model.specs.Changeset.{set_at};
ghost use Rattle.history_model.specs.Tree.{tree_of};
ghost use Rattle.node_table.specs.Table.{is_settled};
ghost use Rattle.changeset_store.specs.Store.{changeset_at, parent_at};
ghost use Rattle.path_log.specs.Line.{IsEarlier};
ghost use Rattle.path_log.specs.Pasts.{id_in, last_past};
ghost use Rattle.manifest_store.specs.Manifests.{AreManifests};
ghost use Rattle.changeset_store.specs.Pasts.{past_at, past_at_some};
ghost use Rattle.manifest_store.specs.PathLines.{IsEnd, IsLinkOf, has_file_at, is_logged_at, last_logged_at, link_at};

use crate::reads::id_of;
use crate::walk::{DeletedNodes, Unodes, walk};
use bonsai::Change;
use changeset_store::ChangesetStore;
use node_table::NodeTable;
use object_id::Id;
use path_log::{Lines, Members};
use repo_path::RepoPath;
use unode::UnodeEntry;

/// The settled changesets, each with its line of first parents.
#[derive(Clone, Copy)]
pub(crate) struct SettledLines<'a> {
    pub(crate) table: &'a NodeTable,
    pub(crate) changesets: &'a ChangesetStore,
    pub(crate) ghost manifests: { ∥ AreManifests changesets.now.known table.now ∥₁ },
    pub(crate) ghost earlier: { IsEarlier (is_settled table.now) (parent_at changesets.now.known) },
}

impl<'a> SettledLines<'a> {
    // The changeset that made the unode of a file, if a file is at the path.
    fn setter(&self, at: u32, path: &RepoPath) -> Option<Id>
        requires { is_settled self.now.table.now at ≡ true }
        ensures { result ≡ if has_file_at self.now.changesets.now.known path.now at then Some (link_at self.now.changesets.now.known path.now at) else None }
    {
        let Some(roots) = self.table.roots(at) else {
            unreachable!()
        };
        let unodes = Unodes { table: self.table };
        let Some(entry) = walk(&unodes, roots.unode, Some(path)) else {
            return None;
        };
        match entry {
            UnodeEntry::File(id) => match self.table.file_unode(&id) {
                Some(file) => Some(file.linknode),
                None => unreachable!(),
            },
            UnodeEntry::Directory(_) => None,
        }
    }

    // The changeset that took the last file at the path away, if no file is there.
    fn deleter(&self, at: u32, path: &RepoPath) -> Option<Id>
        requires { is_settled self.now.table.now at ≡ true }
        ensures { result ≡ if has_file_at self.now.changesets.now.known path.now at then None else id_in (last_past (past_at self.now.changesets.now.known at) path.now) }
    {
        let Some(roots) = self.table.roots(at) else {
            unreachable!()
        };
        let deleted = DeletedNodes { table: self.table };
        let Some(entry) = walk(&deleted, roots.deleted, Some(path)) else {
            return None;
        };
        self.table.deleted_link(&id_of(entry))
    }

    // The first on the line of `at` that is the one of the link or has two parents: numbers fall along the line, so that it
    // is the higher one. Those before it keep the file, so none of them is logged.
    fn merge_or_link(&self, at: u32, link: u32) -> u32
        requires settled { is_settled self.now.table.now at ≡ true }
        requires link { (p : Path) × IsLinkOf self.now.changesets.now.known p at link }
        ensures settled { is_settled self.now.table.now result ≡ true }
        ensures upto { result ≤ at }
        ensures file { (p : Path) → IsLinkOf self.now.changesets.now.known p at link → has_file_at self.now.changesets.now.known p result ≡ true }
        ensures last { (p : Path) → IsLinkOf self.now.changesets.now.known p at link → last_logged_at self.now.changesets.now.known p result ≡ last_logged_at self.now.changesets.now.known p at }
    {
        match self.changesets.nearest_merge(at) {
            Some(merge) => merge.max(link),
            None => link,
        }
    }

    // The first on the line of `at` that made the file at the path there or has two parents, if a file is there.
    fn maker_or_merge(&self, at: u32, path: &RepoPath) -> Option<u32>
        requires { is_settled self.now.table.now at ≡ true }
        ensures file { is_some result ≡ has_file_at self.now.changesets.now.known path.now at }
        ensures end { IfSome result (λ end. IsEnd self.now.changesets.now.known self.now.table.now path.now at end) }
    {
        let id = self.setter(at, path)?;
        let Some(link) = self.changesets.number_of(&id) else {
            unreachable!()
        };
        Some(self.merge_or_link(at, link))
    }

    // Whether the changeset sets the path.
    fn is_set(&self, at: u32, path: &RepoPath) -> bool
        requires { at < length self.now.changesets.now.known }
        ensures { result ≡ is_some (set_at (changeset_at self.now.changesets.now.known at) path.now) }
    {
        match self.changesets.at(at).changeset().change_at(path) {
            Some(Change::Set { .. }) => true,
            Some(Change::Delete) => false,
            None => false,
        }
    }

    // Whether a file is at the path in its first parent.
    fn had_file(&self, at: u32, path: &RepoPath) -> bool
        requires { is_settled self.now.table.now at ≡ true }
        ensures { result ≡ is_some (tree_of (past_at_some self.now.changesets.now.known (parent_at self.now.changesets.now.known at)) path.now) }
    {
        match self.changesets.parent(at) {
            Some(parent) => self.setter(parent, path).is_some(),
            None => false,
        }
    }
}

impl<'a> Members for SettledLines<'a> {
    ghost may_be_asked = { λ lines n. is_settled lines.table.now n };

    ghost parent_of = { λ lines n. parent_at lines.changesets.now.known n };

    ghost has_file = { λ lines p n. has_file_at lines.changesets.now.known p n };

    ghost is_logged = { λ lines p n. is_logged_at lines.changesets.now.known p n };

    fn has_file(&self, at: u32, path: &RepoPath) -> bool {
        self.setter(at, path).is_some()
    }

    // A changeset that doesn't set the path leaves a file there as it was, or takes it away.
    fn is_logged(&self, at: u32, path: &RepoPath) -> bool {
        if self.is_set(at, path) {
            return true;
        }
        let has = self.has_file(at, path);
        let had = self.had_file(at, path);
        if has { !had } else { had }
    }

    fn parent(&self, at: u32) -> Option<u32> {
        self.changesets.parent(at)
    }

    ghost earlier = { λ lines. lines.earlier };
}

impl<'a> Lines for SettledLines<'a> {
    ghost may_be_asked = { λ lines n. is_settled lines.table.now n };

    ghost parent_of = { λ lines n. parent_at lines.changesets.now.known n };

    ghost has_file = { λ lines p n. has_file_at lines.changesets.now.known p n };

    ghost is_logged = { λ lines p n. is_logged_at lines.changesets.now.known p n };

    // A merge that isn't logged leaves the first parent's file as it was.
    fn file_link(&self, at: u32, path: &RepoPath) -> Option<u32> {
        let mut next = self.maker_or_merge(at, path);
        'ends: while let Some(end) = next {
            if self.is_logged(end, path) {
                return Some(end);
            }
            next = match self.changesets.parent(end) {
                Some(parent) => self.maker_or_merge(parent, path),
                None => None,
            };
        }
        None
    }

    fn deleted_link(&self, at: u32, path: &RepoPath) -> Option<u32> {
        match self.deleter(at, path) {
            Some(id) => self.changesets.number_of(&id),
            None => None,
        }
    }

    fn parent(&self, at: u32) -> Option<u32> {
        self.changesets.parent(at)
    }

    ghost earlier = { λ lines. lines.earlier };
}
