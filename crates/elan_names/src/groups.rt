//! Numbers that are kept under keys.

ghost use Rattle.std.specs.Prelude.{◌≡◌, [], OnOk};
ghost use Rattle.std.specs.Option.{option_map};
ghost use Rattle.elan_names.specs.Groups as spec;
ghost use Rattle.elan_names.specs.Groups.{KeyValue};

use elan_text::NoMemory;
use indexmap::IndexMap;
use sqlite_items::Items;
use std::alloc::{AllocError, Global};

/// What numbers are found by: a name, for an operator how many holes it has, and a sort, if it is
/// one at a sort that is asked for.
#[derive(PartialEq, Eq, Hash, Drop)]
pub struct Key {
    pub(crate) name: Vec<u8>,
    pub(crate) holes: Option<usize>,
    pub(crate) sort: Option<u32>,
}

/// Numbers under keys.
#[derive(Drop)]
pub struct Groups {
    map: IndexMap<Key, Items<u32>>,
}

impl Groups {
    /// No number under any key.
    pub fn new(alloc: Global) -> Groups
        ensures { (key : KeyValue) → spec.under result key ≡ [] }
    {
        Groups {
            map: IndexMap::new(alloc),
        }
    }

    /// The numbers under a key, in the order in which they were added.
    pub fn find(&self, key: &Key) -> &[u32]
        ensures { result.now ≡ spec.under self.now (spec.value_of key.now) }
    {
        match self.map.get(key) {
            None => &[],
            Some(numbers) => numbers.as_slice(),
        }
    }

    /// The numbers under a key, which are taken out.
    fn take(&mut self, alloc: Global, key: &Key) -> Items<u32>
        ensures value { result ≡ spec.under self.old (spec.value_of key.now) }
        ensures others { (asked : KeyValue) → spec.under self.new asked
            ≡ spec.put (spec.value_of key.now) [] asked (spec.under self.old asked) }
    {
        match self.map.swap_remove(key) {
            None => Items::new(alloc),
            Some(numbers) => numbers,
        }
    }

    /// Puts numbers under a key in the place of those that are there.
    fn put(&mut self, key: Key, numbers: Items<u32>) -> Result<(), NoMemory>
        ensures { OnOk result ((asked : KeyValue) → spec.under self.new asked
            ≡ spec.put (spec.value_of key) numbers asked (spec.under self.old asked)) }
    {
        match self.map.insert(key, numbers) {
            Ok(_) => Ok(()),
            Err(_) => Err(AllocError),
        }
    }

    /// Adds a number under a key, behind those that are there. Where memory runs out, the numbers
    /// under this key may be gone.
    fn add(&mut self, alloc: Global, key: Key, number: u32) -> Result<(), NoMemory>
        ensures { OnOk result ((asked : KeyValue) → spec.under self.new asked
            ≡ spec.with_number asked (Some (spec.value_of key)) number (spec.under self.old asked)) }
    {
        let mut numbers = self.take(alloc, &key);
        numbers.push(number)?;
        self.put(key, numbers)?;
        Ok(())
    }

    /// Adds a number under a key, if there is a key. Where memory runs out, the numbers under this
    /// key may be gone.
    pub fn note(&mut self, alloc: Global, key: Option<Key>, number: u32) -> Result<(), NoMemory>
        ensures { OnOk result ((asked : KeyValue) → spec.under self.new asked
            ≡ spec.with_number asked (option_map spec.value_of key) number (spec.under self.old
            asked)) }
    {
        match key {
            None => Ok(()),
            Some(key) => self.add(alloc, key, number),
        }
    }
}
