//! Putting in what was derived.
ghost use Rattle.std.specs.Prelude.{◌≡◌, ◌<◌, true, false, length, is_some, IsOk, IfErr, OnErr, OnOk};
ghost use Rattle.std.specs.Option.{option_map_or};
ghost use Rattle.std.specs.FinMap as map;
ghost use Rattle.node_table.specs.Table.{is_settled};
ghost use Rattle.changeset_store.specs.Pasts.{past_at};
ghost use Rattle.manifest_store.specs.Manifests.{AreManifests};
ghost use Rattle.manifest_store.specs.Jobs.{IsDoneIn, is_ready as is_ready_in, settled_by};
ghost use Rattle.manifest_store.specs.Settling.{IsCollision, IsCollisionBeside};

use crate::store::ManifestStore;
use changeset_store::ChangesetStore;
use derive_step::Done;
use node_table::TableFault;
use std::alloc::Global;

impl ManifestStore {
    /// Puts in what was derived of a changeset, or nothing. One that is settled already, or a parent of which isn't,
    /// changes nothing.
    pub fn settle(
        &mut self,
        alloc: Global,
        changesets: &ChangesetStore,
        done: Done,
    ) -> Result<(), TableFault>
        requires manifests { AreManifests changesets.now.known self.old }
        requires known { done.number < length changesets.now.known }
        requires derived { IsDoneIn (past_at changesets.now.known done.number) done }
        ensures ok { OnOk result (self.new ≡ settled_by changesets.now.known self.old done) }
        ensures err { OnErr result (self.new ≡ self.old) }
        ensures settled { is_ready_in changesets.now.known self.old done.number ≡ true → OnOk result (is_settled self.new done.number ≡ true) }
        ensures late { is_ready_in changesets.now.known self.old done.number ≡ false → IsOk result }
        ensures collision { IfErr result (λ fault. IsCollision changesets.now.known fault) }
        ensures beside { IfErr result (λ fault. IsCollisionBeside changesets.now.known self.old done.number fault) }
        ensures manifests { AreManifests changesets.now.known self.new }
    {
        if !self.is_ready(changesets, done.number) {
            return Ok(());
        }
        self.table
            .settle(alloc, done.number, done.roots, done.nodes)
    }

    // Whether a changeset isn't settled, and its parents are, those that it has.
    fn is_ready(&self, changesets: &ChangesetStore, number: u32) -> bool
        requires { number < length changesets.now.known }
        ensures ready { result ≡ is_ready_in changesets.now.known self.now number }
        ensures rooted { is_some (map.get self.now.roots number) ≡ is_settled self.now number }
    {
        if self.table.roots(number).is_some() {
            return false;
        }
        self.is_settled_or_none(changesets.parent(number))
            && self.is_settled_or_none(changesets.second_parent(number))
    }
    // Whether the manifests of a parent are here, if there is one.
    fn is_settled_or_none(&self, number: Option<u32>) -> bool
        ensures { result ≡ option_map_or (is_settled self.now) number true }
    {
        match number {
            Some(number) => self.is_settled(number),
            None => true,
        }
    }
}
