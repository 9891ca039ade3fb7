//! Deleted nodes at paths and above them.
ghost use Rattle.std.specs.Prelude.{◌≡◌, OnOk, option_map};
ghost use Rattle.std.specs.List.{AllByRecursion};
ghost use Rattle.manifest_model.specs.Unode.{UnodeDir};
ghost use Rattle.changeset_model.specs.Path.{elements};
ghost use Rattle.manifest_store.specs.Nodes.{deleted_entry_under};
ghost use Rattle.manifest_store.specs.Holding.{AreOf, IsMore, IsHere, AreOnWay};

use crate::place::parted;
use node_table::{Node, NodeTable};
use object_id::Id;
use repo_path::RepoPath;
use std::alloc::{AllocError, Global};
use std::collections::BTreeMap;

/// Holds the deleted nodes at paths and above them, down from the root as far as there are any.
pub(crate) fn hold_ways(
    alloc: Global,
    table: &NodeTable,
    root: &Id,
    paths: &[RepoPath],
    nodes: &mut BTreeMap<Id, Node>,
) -> Result<(), AllocError>
    requires { AreOf table.now.nodes nodes.old }
    ensures are { OnOk result (AreOf table.now.nodes nodes.new) }
    ensures more { OnOk result (IsMore nodes.old nodes.new) }
    ensures root { OnOk result (IsHere table.now.nodes nodes.new root.now) }
    ensures ways { OnOk result (AllByRecursion (AreOnWay table.now.nodes nodes.new root.now) paths.now) }
{
    hold(alloc, table, root, nodes)?;
    for path in paths {
        hold_way(alloc, table, root, path.as_str(), nodes)?;
    }
    Ok(())
}

fn hold_way(
    alloc: Global,
    table: &NodeTable,
    root: &Id,
    path: &str,
    nodes: &mut BTreeMap<Id, Node>,
) -> Result<(), AllocError>
    requires are { AreOf table.now.nodes nodes.old }
    requires root { IsHere table.now.nodes nodes.old root.now }
    ensures are { OnOk result (AreOf table.now.nodes nodes.new) }
    ensures more { OnOk result (IsMore nodes.old nodes.new) }
    ensures way { OnOk result (AreOnWay table.now.nodes nodes.new root.now (elements path.now)) }
{
    let mut at = *root;
    let mut rest = Some(path);
    while let Some(text) = rest {
        let (name, after) = parted(text);
        let Some(id) = id_in(table, &at, name) else {
            return Ok(());
        };
        hold(alloc, table, &id, nodes)?;
        at = id;
        rest = after;
    }
    Ok(())
}

// What a deleted node has under a name.
fn id_in(table: &NodeTable, id: &Id, name: &str) -> Option<Id>
    ensures { option_map UnodeDir result ≡ deleted_entry_under table.now.nodes id.now name.now }
{
    let entry = table.deleted_entry(id, name)?;
    Some(entry.id)
}

// Holds the node of an id, if there is one.
fn hold(
    alloc: Global,
    table: &NodeTable,
    id: &Id,
    nodes: &mut BTreeMap<Id, Node>,
) -> Result<(), AllocError>
    requires { AreOf table.now.nodes nodes.old }
    ensures are { OnOk result (AreOf table.now.nodes nodes.new) }
    ensures more { OnOk result (IsMore nodes.old nodes.new) }
    ensures here { OnOk result (IsHere table.now.nodes nodes.new id.now) }
{
    if nodes.contains_key(id) {
        return Ok(());
    }
    if let Some(bytes) = table.get(alloc, id)? {
        nodes.insert(*id, Node::of(bytes.into_vec(alloc)?))?;
    }
    Ok(())
}
