//! Lists of numbers by keys.
ghost use Rattle.std.specs.Prelude.{◌≡◌, ℕ, [], Contains, OnOk};
ghost use Rattle.touch_index.specs.Lists.{numbers_at, AreRisingTo, KeepAll};

use crate::numbers::put_last;
use std::alloc::{AllocError, Global};
use std::collections::HashMap;
use std::hash::RandomState;

/// Lists of numbers, each under its key.
#[derive(Drop)]
pub struct NumberLists {
    pub(crate) map: HashMap<u64, Vec<u32>, RandomState>,
}

impl NumberLists {
    /// No list, in a table that is hashed with these keys.
    pub(crate) fn new(alloc: Global, keys: RandomState) -> NumberLists
        ensures { (key : ℕ) → numbers_at result key ≡ [] }
    {
        NumberLists {
            map: HashMap::with_hasher(alloc, keys),
        }
    }

    /// The numbers under a key.
    pub(crate) fn numbers(&self, key: u64) -> &[u32]
        ensures { result.now ≡ numbers_at self.now key }
    {
        match self.map.get(&key) {
            Some(numbers) => numbers.as_slice(),
            None => &[],
        }
    }

    /// Puts a number at the end of the list under a key, unless it stands there.
    pub(crate) fn enter(&mut self, alloc: Global, key: u64, number: u32) -> Result<(), AllocError>
        requires { AreRisingTo number self.old }
        ensures rising { AreRisingTo number self.new }
        ensures keeps { KeepAll self.old self.new }
        ensures there { OnOk result (Contains (numbers_at self.new key) number) }
    {
        if let Some(numbers) = self.map.get_mut(&key) {
            return put_last(numbers, number);
        }
        let mut numbers = Vec::new(alloc);
        numbers.push(number)?;
        self.map.insert(key, numbers)?;
        Ok(())
    }
}
