//! What the engine works on: a program, and what is asked below a level.

ghost use Rattle.std.specs.Prelude.{◌≡◌, IfOk};
ghost use Rattle.elan_terms.specs.Term as term_spec;
ghost use Rattle.elan_terms.specs.Match as match_spec;
ghost use Rattle.elan_program.specs.Signature.{shapes_of};
ghost use Rattle.elan_plain.specs.Engine.{IsWorld};

use crate::Closure;
use crate::matching::all_matches;
use elan_meaning::Cause;
use elan_program::{Program, Rule};
use elan_terms::{OpId, Pattern, Shapes, SortId, Term, is_of_sort, node};
use elan_text::NoMemory;
use sqlite_items::Items;
use std::alloc::Global;

/// A program with its shapes, which are made once.
#[derive(Drop)]
pub struct World<'a> {
    pub program: &'a Program,
    pub shapes: Shapes,
}

/// What is asked for below a level.
#[derive(Clone, Copy)]
pub enum Ask<'a> {
    /// A rule's conditions and right side, under the values of a match.
    Body(&'a Rule, &'a [Term]),
    /// A strategy on a term.
    Run(Closure<'a>, &'a Term),
    /// `repeat*` of a strategy on a term.
    Repeat(Closure<'a>, &'a Term),
    /// `iterate*` of a strategy on a term.
    Iterate(Closure<'a>, &'a Term),
    /// A strategy at the positions of a sort in a term.
    Place(SortId, Closure<'a>, &'a Term),
}

/// The steps that are left after the arguments were normalised, or the mark among them.
#[derive(Clone, Copy)]
pub enum Turn {
    Left(u32),
    Stopped(Cause),
}

impl World<'_> {
    pub(crate) fn matches(
        &self,
        alloc: Global,
        pattern: &Pattern,
        first: u32,
        term: &Term,
    ) -> Result<Items<Items<Term>>, NoMemory>
        requires { IsWorld self.now }
        ensures { IfOk result (λ all.
            all ≡ match_spec.matches
            (shapes_of self.now.program.now.signature) pattern.now term.now) }
    {
        all_matches(alloc, &self.shapes, pattern, first, term)
    }

    pub(crate) fn node(&self, alloc: Global, op: OpId, args: Items<Term>) -> Result<Term, NoMemory>
        requires { IsWorld self.now }
        ensures { IfOk result (λ t.
            t ≡ term_spec.node (shapes_of self.now.program.now.signature) op args) }
    {
        node(alloc, &self.shapes, op, args)
    }

    pub(crate) fn is_of_sort(&self, term: &Term, sort: SortId) -> bool
        requires { IsWorld self.now }
        ensures { result
            ≡ match_spec.is_sort
            (term_spec.sort_of (shapes_of self.now.program.now.signature) term.now) sort }
    {
        is_of_sort(&self.shapes, term, sort)
    }
}
