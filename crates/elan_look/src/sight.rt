//! What is known where a pattern is looked at.
ghost use Rattle.std.specs.Prelude.{◌≡◌, ◌↔◌, IsTrue};
ghost use Rattle.std.specs.List.{list_all};
ghost use Rattle.elan_look.specs.Sights as spec;
ghost use Rattle.elan_shares.specs.Shares.{After};
ghost use Rattle.elan_look.specs.Tells.{Takes};

use crate::low::Low;
use crate::sorts::is_of_sort;
use elan_table::{Name, Table, TermRef};
use elan_terms::{Pattern, PatternNode, SortId};
use sqlite_items::{Items, at};

/// The values that variables have, as far as they are known, and the variable whose next value is
/// sought.
#[derive(Drop)]
pub struct Sight<N: Name> {
    /// The number of the first variable.
    pub first: u32,
    /// The values of the variables from the first number on.
    pub known: Items<Option<TermRef<N>>>,
    /// The number of the variable that is sought, and its sort.
    pub sought: Option<(u32, SortId)>,
    /// Its value comes after this one.
    pub floor: Option<TermRef<N>>,
}

fn again_if<N: Name>(row: &Option<TermRef<N>>) -> Option<TermRef<N>>
    ensures { result ≡ row.now }
{
    match row {
        None => None,
        Some(row) => Some(row.again()),
    }
}

impl<N: Name> Sight<N> {
    /// The value of the variable of this number, if it is known.
    pub(crate) fn value(&self, number: u32) -> Option<TermRef<N>>
        ensures { result ≡ spec.value_at self.now number }
    {
        if number < self.first {
            None
        } else {
            match at(self.known.as_slice(), (number - self.first) as usize) {
                None => None,
                Some(row) => again_if(row),
            }
        }
    }

    /// Whether the variable of this number is sought.
    pub(crate) fn is_sought(&self, number: u32) -> bool
        ensures { result ≡ spec.is_sought self.now number }
    {
        match self.sought {
            None => false,
            Some(variable) => variable.0 == number,
        }
    }

    /// Whether the term comes after the floor.
    fn is_after(&self, table: &Table<N>, term: &TermRef<N>) -> bool
        ensures { IsTrue result ↔ After self.now.floor term.now.value }
    {
        match &self.floor {
            None => true,
            Some(floor) => table.compare(floor, term).is_lt(),
        }
    }

    /// Whether the sought variable may have the term as its value, by its sort and the floor.
    pub(crate) fn takes(&self, table: &Table<N>, term: &TermRef<N>) -> bool
        ensures { IsTrue result ↔ Takes N.shapes self.now.sought self.now.floor term.now.value }
    {
        match self.sought {
            None => false,
            Some(variable) => { is_of_sort(table, term, variable.1) && self.is_after(table, term) }
        }
    }

    /// Whether each variable of the pattern has a known value.
    #[cycle(given)]
    #[tactic(auto, using(crate::proofs::SightLemmas::given_rules, elan_terms::proofs::WeightLemmas::falls))]
    pub(crate) fn is_given(&self, pattern: &Pattern) -> bool
        ensures { result ≡ spec.is_given self.now pattern.now }
    {
        match &pattern.node {
            PatternNode::Var(number, _) => self.value(*number).is_some(),
            PatternNode::Int(_) => true,
            PatternNode::App(_, args) => self.are_given(args.as_slice()),
        }
    }

    #[cycle(given)]
    #[tactic(auto, using(crate::proofs::SightLemmas::given_rules, elan_terms::proofs::WeightLemmas::falls))]
    fn are_given(&self, patterns: &[Pattern]) -> bool
        ensures { result ≡ list_all (spec.is_given self.now) patterns.now }
    {
        match patterns {
            [] => true,
            [first, rest @ ..] => self.is_given(first) && self.are_given(rest),
        }
    }
}
