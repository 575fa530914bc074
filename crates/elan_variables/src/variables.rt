//! The variables of a section, those of a word found by its bytes.

ghost use Rattle.std.specs.Prelude.{◌≡◌, [], List, ℕ, length, IfOk};
ghost use Rattle.elan_variables.specs.Places.{under};
ghost use Rattle.elan_variables.specs.Named.{places_of};

use crate::places::Places;
use elan_reading::Variable;
use elan_text::NoMemory;
use sqlite_items::Items;
use std::alloc::Global;
use std::marker::Model;

/// Variables in the order in which they are declared. A name may stand twice. Contracts see it as the list.
#[derive(Drop)]
pub struct Variables {
    list: Items<Variable>,
    places: Places,
}

impl Model for Variables {
    ghost use Rattle.std.specs.Prelude.{◌≡◌, ℕ, List};
    ghost use Rattle.elan_reading.specs.declared.lexeme.Variable.{Variable as VariableValue};
    ghost use Rattle.elan_variables.specs.Places.{under};
    ghost use Rattle.elan_variables.specs.Named.{places_of};

    ghost Value = { List VariableValue };

    ghost view = { λ v. v.list };

    ghost invariant = { λ v. (word : List ℕ) → under v.places word ≡ places_of word 0 v.list };
}

/// Where the names of these variables stand.
fn places_in(alloc: Global, variables: &[Variable]) -> Result<Places, NoMemory>
    ensures { IfOk result (λ p. (word : List ℕ) → under p word ≡ places_of word 0 variables.now) }
{
    let mut places = Places::new(alloc);
    let mut place = 0;
    let mut left = variables;
    'variables: while let [first, rest @ ..] = left {
        places.add(alloc, first.name.as_bytes(), place)?;
        place += 1;
        left = rest;
    }
    Ok(places)
}

impl Variables {
    /// The variables of a list, each found by its name from now on.
    pub fn new(alloc: Global, list: Items<Variable>) -> Result<Variables, NoMemory>
        ensures { IfOk result (λ variables. variables ≡ list) }
    {
        let places = places_in(alloc, list.as_slice())?;
        Ok(Variables { list, places })
    }

    /// No variables, which takes no memory.
    pub fn none(alloc: Global) -> Variables
        ensures { result ≡ [] }
    {
        Variables {
            list: Items::new(alloc),
            places: Places::new(alloc),
        }
    }

    /// All variables.
    pub fn as_slice(&self) -> &[Variable]
        ensures { result.now ≡ self.now }
    {
        self.list.as_slice()
    }

    /// How many variables there are.
    pub fn len(&self) -> usize
        ensures { result ≡ length self.now }
    {
        self.list.len()
    }

    /// The places of all variables with this name, in order. It does not go through the others.
    pub fn places_of(&self, word: &[u8]) -> &[usize]
        ensures { result.now ≡ places_of word.now 0 self.now }
    {
        self.places.find(word)
    }
}
