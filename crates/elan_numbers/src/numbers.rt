//! Names in the order in which they were added, each found by its bytes.

ghost use Rattle.std.specs.Prelude.{◌≡◌, ◌<◌, ◌++◌, [], length, slice_get, take, map, IfOk, IfErr, OnOk, OnErr, IfSome, Some};
ghost use Rattle.elan_numbers.specs.Numbering as spec;

use elan_text::{Name, NoMemory};
use indexmap::IndexSet;
use sqlite_items::Items;
use std::alloc::Global;
use std::marker::Model;

/// Names that differ, each with its number: the first has the number 0, the next one 1, and so on.
#[derive(Drop)]
pub struct Numbers {
    names: IndexSet<Vec<u8>>,
}

impl Model for Numbers {
    ghost use Rattle.std.specs.Prelude.{List, map};
    ghost use Rattle.elan_text.specs.declared.name.Name.{Name as NameValue};

    ghost Value = { List NameValue };

    ghost view = { λ n. map (λ k. record { bytes = k.items }) n.names.keys };

    ghost invariant = { λ n. Unit {0} };
}

impl Numbers {
    /// No names, which takes no memory.
    pub fn new(alloc: Global) -> Numbers
        ensures { result ≡ [] }
    {
        Numbers {
            names: IndexSet::new(alloc),
        }
    }

    /// How many names there are.
    pub fn len(&self) -> usize
        ensures { result ≡ length self.now }
    {
        self.names.len()
    }

    /// The number of a name. It takes no memory, and does not go through the other names.
    pub fn number_of(&self, name: &[u8]) -> Option<usize>
        ensures value { result ≡ spec.number_of name.now self.now }
        ensures within { IfSome result (λ number. number < length self.now) }
    {
        self.names.get_index_of(name)
    }

    /// Adds a name with the next number, unless it has one. Where memory is wanted nothing changes.
    pub fn add(&mut self, alloc: Global, name: &[u8]) -> Result<(), NoMemory>
        ensures ok { OnOk result (self.new ≡ spec.with_name self.old name.now) }
        ensures err { OnErr result (self.new ≡ self.old) }
    {
        if self.names.get_index_of(name).is_some() {
            return Ok(());
        }
        let bytes = Vec::from_slice(alloc, name)?;
        self.names.insert(bytes)?;
        Ok(())
    }

    /// A copy of all names, in the order of their numbers.
    pub fn names(&self, alloc: Global) -> Result<Items<Name>, NoMemory>
        ensures { IfOk result (λ names. names ≡ self.now) }
    {
        let mut names = Items::new(alloc);
        let mut left = self.names.as_slice();
        'names: while let [name, rest @ ..] = left {
            names.push(Name::new(alloc, name.as_slice())?)?;
            left = rest;
        }
        Ok(names)
    }
}
