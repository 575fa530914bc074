//! Where names stand in a list.

ghost use Rattle.std.specs.Prelude.{◌≡◌, ◌++◌, [], List, ℕ, OnOk};
ghost use Rattle.std.specs.Str.{bytes_eq};
ghost use Rattle.elan_variables.specs.Places as spec;

use elan_text::NoMemory;
use indexmap::IndexMap;
use sqlite_items::Items;
use std::alloc::{AllocError, Global};

/// The places of names in a list, the first of which is 0. A name may have several.
#[derive(Drop)]
pub(crate) struct Places {
    map: IndexMap<Vec<u8>, Items<usize>>,
}

impl Places {
    /// No places.
    pub(crate) fn new(alloc: Global) -> Places
        ensures { (word : List ℕ) → spec.under result word ≡ [] }
    {
        Places {
            map: IndexMap::new(alloc),
        }
    }

    /// The places of a name, in the order in which they were added.
    pub(crate) fn find(&self, name: &[u8]) -> &[usize]
        ensures { result.now ≡ spec.under self.now name.now }
    {
        match self.map.get(name) {
            None => &[],
            Some(places) => places.as_slice(),
        }
    }

    /// The places of a name, which are taken out.
    fn take(&mut self, alloc: Global, name: &[u8]) -> Items<usize>
        ensures value { result ≡ spec.under self.old name.now }
        ensures others { (word : List ℕ) → spec.under self.new word
            ≡ spec.put name.now [] word (spec.under self.old word) }
    {
        match self.map.swap_remove(name) {
            None => Items::new(alloc),
            Some(places) => places,
        }
    }

    /// Keeps places for a name instead of those that it has.
    fn put(&mut self, name: Vec<u8>, places: Items<usize>) -> Result<(), NoMemory>
        ensures { OnOk result ((word : List ℕ) → spec.under self.new word
            ≡ spec.put name.items places word (spec.under self.old word)) }
    {
        match self.map.insert(name, places) {
            Ok(_) => Ok(()),
            Err(_) => Err(AllocError),
        }
    }

    /// Adds a place of a name behind those that it has. Where memory runs out, the places of this
    /// name may be gone.
    pub(crate) fn add(&mut self, alloc: Global, name: &[u8], place: usize) -> Result<(), NoMemory>
        ensures { OnOk result ((word : List ℕ) → spec.under self.new word
            ≡ spec.under self.old word ++ spec.place_if (bytes_eq name.now word) place) }
    {
        let mut places = self.take(alloc, name);
        places.push(place)?;
        let name = Vec::from_slice(alloc, name)?;
        self.put(name, places)?;
        Ok(())
    }
}
