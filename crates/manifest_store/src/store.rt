//! The manifests of the known changesets.
ghost use Rattle.std.specs.Prelude.{◌≡◌, List, Some, IfSome, is_some};
ghost use Rattle.history_model.specs.History.{Known};
ghost use Rattle.node_table.specs.Table.{empty_table, is_settled};
ghost use Rattle.changeset_store.specs.Pasts.{past_at};
ghost use Rattle.derive_step.specs.Pasts.{roots_of};
ghost use Rattle.manifest_store.specs.Lines.{IsStore};
ghost use Rattle.manifest_store.specs.Manifests.{AreManifests, AreRight};

use node_table::{NodeTable, Roots};
use std::alloc::Global;
use std::marker::Model;

/// The nodes of the settled changesets, whose numbers are those of a store of changesets. A changeset is settled after
/// its parents.
#[derive(Debug, Drop)]
pub struct ManifestStore {
    pub(crate) table: NodeTable,
}

impl Model for ManifestStore {
    ghost use Rattle.node_table.specs.Table.{Table, coded_table};

    ghost Value = { Table };

    ghost coded = { coded_table };

    ghost view = { λ s. s.table };
}

impl ManifestStore {
    /// A store in which no changeset is settled.
    pub fn new(alloc: Global) -> ManifestStore
        ensures empty { result ≡ empty_table }
        ensures manifests { (ks : List Known) → IsStore ks → AreRight ks → AreManifests ks result }
    {
        ManifestStore {
            table: NodeTable::new(alloc),
        }
    }

    /// The ids of the root nodes of a changeset's manifests, or `None` where it isn't settled.
    pub fn roots(&self, number: u32) -> Option<Roots>
        ensures settled { is_some result ≡ is_settled self.now number }
        ensures roots { (ks : List Known) → AreManifests ks self.now → IfSome result (λ roots. Some roots ≡ roots_of (past_at ks number)) }
    {
        self.table.roots(number)
    }

    /// Whether the manifests of a changeset are here.
    pub fn is_settled(&self, number: u32) -> bool
        ensures { result ≡ is_settled self.now number }
    {
        self.table.roots(number).is_some()
    }
}
