//! The machine.
ghost use Rattle.std.specs.Prelude.{◌≡◌, ◌≤◌, ◌<◌, ◌+◌, ◌^◌, [], length, IsTrue, IfOk, IfErr};
ghost use Rattle.history_model.specs.Journal.{is_header};
ghost use Rattle.history_model.specs.Journal as journal;
ghost use Rattle.history_model.specs.History.{is_down, stored};
ghost use Rattle.bonsai.specs.Versions.{version_view};

use crate::held_rules::HeldRules;
use crate::records::Entry;
use bonsai::Version;
use changeset_store::ChangesetStore;
use content_table::ContentTable;
use object_id::Id;
use repo_calls::Refusal;
use repo_events::FRAME;
use repo_path::BookName;
use std::alloc::Global;
use std::collections::BTreeMap;
use std::hash::RandomState;
use std::marker::Model;
use touch_index::TouchIndex;

/// The bytes of an empty journal: a header of 16 and the closing gate.
pub(crate) const EMPTY_SIZE: u64 = 17;

/// A repository of one thread: its capacity, the version of its file, its entries, and what is looked up in them.
#[derive(Drop)]
pub struct Machine {
    pub(crate) capacity: u64,
    pub(crate) version: Version,
    pub(crate) size: u64,
    // Whether the disk failed so that nothing more is stored.
    pub(crate) down: bool,
    pub(crate) entries: Vec<Entry>,
    // The places of the entries that are stored.
    pub(crate) kept: Vec<usize>,
    pub(crate) contents: ContentTable,
    pub(crate) changesets: ChangesetStore,
    // What of them touches which paths. It may lack the last of them.
    pub(crate) touches: TouchIndex,
    // Each bookmark that was ever named, with its head if it has one.
    pub(crate) heads: BTreeMap<BookName, Option<Id>>,
    // The policy that is held.
    pub(crate) held: Option<HeldRules>,
}

impl Model for Machine {
    ghost use Rattle.std.specs.Prelude.{◌≡◌, ◌-◌, length};
    ghost use Rattle.std.specs.List.{AllByRecursion};
    ghost use Rattle.std.specs.Option.{option_flatten};
    ghost use Rattle.std.specs.Vec.{vec_len, vec_capacity};
    ghost use Rattle.std.specs.BTreeMap.{get as get_ordered};
    ghost use Rattle.std.specs.Map.{keys_of};
    ghost use Rattle.bonsai.specs.Versions.{version_view};
    ghost use Rattle.content_table.specs.Table.{lengths, places, joined, spare_in};
    ghost use Rattle.repo_machine.specs.Held.{Held, coded_held};

    ghost Value = { Held };

    ghost coded = { coded_held };

    ghost use Rattle.repo_machine.specs.Records.{history_of, kept_from, IsWithin};
    ghost use Rattle.repo_machine.specs.Indexes.{AreIndexes, AreAt, AreJoined};
    ghost use Rattle.repo_machine.specs.Policies.{IsHeld};
    ghost use Rattle.repo_machine.specs.Touches.{Covers};

    ghost view = { λ m. record {
      header = record { capacity = m.capacity; version = version_view m.version };
      history = history_of m.changesets.known m.entries.items;
      room = record {
        entries = vec_capacity m.entries - vec_len m.entries;
        stored = vec_capacity m.kept - vec_len m.kept;
        contents = spare_in m.contents;
        changesets = m.changesets.room;
        names = keys_of m.heads.entries;
      };
    } };

    ghost invariant = { λ m. AllByRecursion (IsWithin (length m.changesets.known)) m.entries.items ×
        AreIndexes (record { capacity = m.capacity; version = version_view m.version }) (history_of m.changesets.known m.entries.items) m.changesets.known
        (λ name. option_flatten (get_ordered ⟦<BookName as Ord>⟧.cmp m.heads name))
        (lengths m.contents) m.size m.down ×
        AreAt (history_of m.changesets.known m.entries.items) (places m.contents) ×
        (m.kept.items ≡ kept_from 0 m.entries.items) ×
        IsHeld (history_of m.changesets.known m.entries.items) m.held ×
        AreJoined (history_of m.changesets.known m.entries.items) (joined m.contents) ×
        Covers m.touches m.changesets.known };
}

impl Machine {
    /// A repository of this capacity in bytes, from 4,096 to 34,359,738,368, whose file has this version, without an entry.
    /// Its tables by ids are hashed with these keys.
    pub fn new(alloc: Global, keys: RandomState, capacity: u64, version: Version) -> Machine
        requires { IsTrue (is_header (record { capacity = capacity; version = version_view version })) }
        ensures header { result.header ≡ record { capacity = capacity; version = version_view version } }
        ensures history { result.history ≡ [] }
    {
        Machine {
            capacity,
            version,
            size: EMPTY_SIZE,
            down: false,
            entries: Vec::new(alloc),
            kept: Vec::new(alloc),
            contents: ContentTable::new(alloc, keys),
            changesets: ChangesetStore::new(alloc, keys),
            touches: TouchIndex::new(alloc, keys),
            heads: BTreeMap::new(alloc),
            held: None,
        }
    }

    /// The bytes of the journal that would stand for the history: a header, a record for each stored entry, and a closing
    /// gate.
    pub fn size(&self) -> u64
        ensures { result ≡ journal.size self.now.history }
    {
        self.size
    }

    /// The version of the file.
    pub fn version(&self) -> Version
        ensures { version_view result ≡ self.now.header.version }
    {
        self.version
    }

    /// How many entries the history has, with its faults.
    pub fn history_length(&self) -> u64
        ensures { result ≡ length self.now.history }
    {
        self.entries.len() as u64
    }

    /// How many entries are stored.
    pub fn stored_length(&self) -> u64
        ensures { result ≡ length (stored self.now.history) }
    {
        self.kept.len() as u64
    }

    /// Whether the disk failed so that nothing more is stored.
    pub fn down(&self) -> bool
        ensures { result ≡ is_down self.now.history }
    {
        self.down
    }

    // The journal's size with a payload of this length more, if it fits.
    pub(crate) fn check_size(&self, payload: u64) -> Result<(), Refusal>
        requires { payload < 2 ^ 63 }
        ensures ok { IfOk result (λ done. journal.size self.now.history + FRAME + payload ≤ self.now.header.capacity) }
        ensures err { IfErr result (λ e. (e ≡ Refusal.Full (journal.size self.now.history) payload) × (self.now.header.capacity < journal.size self.now.history + FRAME + payload)) }
    {
        if self.size + FRAME as u64 + payload > self.capacity {
            return Err(Refusal::Full {
                size: self.size,
                length: payload,
            });
        }
        Ok(())
    }
}
