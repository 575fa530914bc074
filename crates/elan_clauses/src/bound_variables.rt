//! The variables that a rule has bound so far.

ghost use Rattle.std.specs.Prelude.{◌≡◌, ◌≤◌, [], length, OnOk};
ghost use Rattle.elan_terms.specs.Match.{noted, new_in};
ghost use Rattle.elan_program.specs.Patterns.{is_bound as is_bound_in};
ghost use Rattle.elan_clauses.specs.Texts.{has_number as has_number_in};
ghost use Rattle.elan_clauses.specs.Rules.{place_in as place_among};

use elan_terms::SortId;
use elan_text::NoMemory;
use indexmap::IndexMap;
use std::alloc::Global;
use std::marker::Model;

/// Variables with their sorts in the order in which they were bound, each found by its number. Contracts see the list;
/// no two of them have one number.
#[derive(Drop)]
pub struct BoundVariables {
    sorts: IndexMap<u32, SortId>,
}

impl Model for BoundVariables {
    ghost use Rattle.std.specs.Prelude.{ℕ, List, nat_eq};
    ghost use Rattle.indexmap.specs.IndexMap.{IsUnique};
    ghost use Rattle.elan_terms.specs.declared.tree.SortId.{SortId as SortValue};

    ghost Value = { List (ℕ × SortValue) };

    ghost view = { λ b. b.sorts.entries };

    ghost invariant = { λ b. IsUnique nat_eq b.sorts };
}

impl BoundVariables {
    /// No variables.
    pub fn new(alloc: Global) -> BoundVariables
        ensures { result ≡ [] }
    {
        BoundVariables {
            sorts: IndexMap::new(alloc),
        }
    }

    /// How many variables are bound.
    pub fn len(&self) -> usize
        ensures { result ≡ length self.now }
    {
        self.sorts.len()
    }

    /// Whether a variable with this number is bound, at whatever sort.
    pub(crate) fn has_number(&self, number: u32) -> bool
        ensures { result ≡ has_number_in self.now number }
    {
        self.sorts.get_index_of(&number).is_some()
    }

    /// Whether a variable is bound, at this sort.
    pub(crate) fn is_bound(&self, number: u32, sort: SortId) -> bool
        ensures { result ≡ is_bound_in self.now (number, sort) }
    {
        match self.sorts.get(&number) {
            None => false,
            Some(bound) => bound.0 == sort.0,
        }
    }

    /// The place of a variable; how many there are, where it is not bound.
    pub(crate) fn place_in(&self, number: u32) -> usize
        ensures exact { result ≡ place_among self.now number }
        ensures within { result ≤ length self.now }
    {
        match self.sorts.get_index_of(&number) {
            None => self.sorts.len(),
            Some(place) => place,
        }
    }

    /// Binds a variable behind the others, unless its number is bound. Where memory runs out nothing changes.
    fn bind(&mut self, number: u32, sort: SortId) -> Result<(), NoMemory>
        ensures { OnOk result (self.new ≡ noted self.old (number, sort)) }
    {
        if self.sorts.get_index_of(&number).is_some() {
            return Ok(());
        }
        self.sorts.insert(number, sort)?;
        Ok(())
    }

    /// Binds each of these variables whose number is not bound yet, behind the others.
    pub(crate) fn bind_all(&mut self, found: &[(u32, SortId)]) -> Result<(), NoMemory>
        ensures { OnOk result (self.new ≡ new_in self.old found.now) }
    {
        let mut left = found;
        'variables: while let [first, rest @ ..] = left {
            self.bind(first.0, first.1)?;
            left = rest;
        }
        Ok(())
    }
}
