//! Roots by the numbers of their changesets.
ghost use Rattle.std.specs.Prelude.{◌≡◌, OnOk, OnErr};
ghost use Rattle.std.specs.FinMap as map;

use crate::roots::Roots;
use std::alloc::{AllocError, Global};
use std::collections::BTreeMap;
use std::marker::Model;

#[derive(Debug, Drop)]
pub struct RootTable {
    roots: BTreeMap<u32, Roots>,
}

impl Model for RootTable {
    ghost use Rattle.std.specs.FinMap as map;
    ghost use Rattle.std.specs.Coded.{coded_ℕ};
    ghost use Rattle.std.specs.Ordering.{nat_cmp};
    ghost use Rattle.node_table.specs.Table.{coded_roots};
    ghost use Rattle.node_table.specs.declared.roots.Roots.{Roots as RootIds};

    ghost Value = { map.FinMap nat_cmp RootIds };

    ghost coded = { map.code coded_ℕ coded_roots };

    ghost view = { λ t. map.from_entries t.roots.entries };
}

impl RootTable {
    pub fn new(alloc: Global) -> RootTable
        ensures { result ≡ map.empty }
    {
        RootTable {
            roots: BTreeMap::new(alloc),
        }
    }

    pub fn get(&self, number: u32) -> Option<Roots>
        ensures { result ≡ map.get self.now number }
    {
        self.roots.get(&number).copied()
    }

    pub fn insert(&mut self, number: u32, roots: Roots) -> Result<(), AllocError>
        ensures ok { OnOk result (self.new ≡ map.insert self.old number roots) }
        ensures err { OnErr result (self.new ≡ self.old) }
    {
        self.roots.insert(number, roots)?;
        Ok(())
    }
}
