//! The table of contents.
ghost use Rattle.std.specs.Prelude.{◌≡◌, ◌≤◌, ◌+◌, List, None, Some, if◌then◌else◌, bytes_eq, is_some, option_map, OnOk};
ghost use Rattle.std.specs.Arc.{arc_value};
ghost use Rattle.byte_fields.specs.Bytes.{Id as ModelId};
ghost use Rattle.content_table.specs.Table.{stored_in, lengths, places, joined, spare_in};

use crate::place::Place;
use crate::stored::{Stored, Whole};
use object_id::Id;
use std::alloc::{AllocError, Global};
use std::collections::HashMap;
use std::hash::RandomState;

/// What is stored under each id.
#[derive(Drop)]
pub struct ContentTable {
    pub(crate) map: HashMap<Id, Stored, RandomState>,
}

impl ContentTable {
    /// A table in which nothing is stored, hashed with these keys. It takes no memory.
    pub fn new(alloc: Global, keys: RandomState) -> ContentTable
        ensures { (x : ModelId) → stored_in result x ≡ None }
    {
        ContentTable {
            map: HashMap::with_hasher(alloc, keys),
        }
    }

    /// How many bytes the content with this id has.
    pub fn length(&self, id: &Id) -> Option<u64>
        ensures { result ≡ lengths self.now id.now }
    {
        match self.map.get(id) {
            Some(stored) => Some(stored.length()),
            None => None,
        }
    }

    /// Where the bytes of the content with this id stand. None also of one that was joined.
    pub fn place(&self, id: &Id) -> Option<Place>
        ensures { result ≡ places self.now id.now }
    {
        match self.map.get(id) {
            Some(Stored::Content(place)) => Some(*place),
            Some(Stored::Whole(_)) => None,
            None => None,
        }
    }

    /// The ids of the contents of which the one with this id was joined. None where none was joined under it.
    pub fn joined(&self, id: &Id) -> Option<&[Id]>
        ensures { option_map (λ parts. parts.now) result ≡ joined self.now id.now }
    {
        match self.map.get(id) {
            Some(Stored::Whole(whole)) => Some(whole.parts.as_slice()),
            Some(Stored::Content(_)) => None,
            None => None,
        }
    }

    /// Whether a content was joined under this id.
    pub fn is_joined(&self, id: &Id) -> bool
        ensures { result ≡ is_some (joined self.now id.now) }
    {
        match self.map.get(id) {
            Some(Stored::Whole(_)) => true,
            Some(Stored::Content(_)) => false,
            None => false,
        }
    }

    /// Makes room for one content more.
    pub fn reserve(&mut self) -> Result<(), AllocError>
        ensures same { (x : ModelId) → stored_in self.new x ≡ stored_in self.old x }
        ensures room { OnOk result (1 ≤ spare_in self.new) }
        ensures keeps { spare_in self.old ≤ spare_in self.new }
    {
        self.map.try_reserve(1)
    }

    /// Stores something under an id, for which there is room.
    pub fn enter(&mut self, id: Id, stored: Stored)
        requires room { 1 ≤ spare_in self.old }
        ensures entered { (x : ModelId) → stored_in self.new x ≡ (if bytes_eq id x then Some stored else stored_in self.old x) }
    {
        let Ok(_) = self.map.insert(id, stored) else {
            unreachable!();
        };
    }
}
