//! The walk through the matches.

ghost use Rattle.std.specs.Prelude.{◌≡◌, [], ◌∷◌, drop, None, IfOk, IfSome, OnErr, IsTrue};
ghost use Rattle.elan_terms.specs.Match.{matches as all_matches, variables as all_variables};
ghost use Rattle.elan_terms.specs.Valid.{IsValid};
ghost use Rattle.elan_terms.specs.Canonical.{IsCanonical};

use crate::NoMemory;
use crate::look::{Look, Prefix};
use crate::task::{Stage, Task};
use elan_terms::{Pattern, Shapes, SortId, Term, parts, variables};
use sqlite_items::Items;
use std::alloc::Global;
use std::marker::Model;

/// A walk through the matches of a pattern in a term, one at a time. Contracts see the list of
/// those that it has still to give: each has a value for each variable, in order of first
/// occurrence.
#[derive(Drop)]
pub struct Walk<'a> {
    task: Task<'a>,
    stage: Stage,
}

impl<'a> Model for Walk<'a> {
    ghost use Rattle.std.specs.Prelude.{List};
    ghost use Rattle.elan_terms.specs.declared.tree.Term.{Term as TermValue};
    ghost use Rattle.elan_terms.specs.contracts.tree.Term as term;
    ghost use Rattle.std.specs.Coded.{codes};
    ghost use Rattle.elan_fits.specs.Walks.{Stands, left};

    ghost Value = { List (List TermValue) };

    ghost coded = { Prim.hlevel (codes, term.the_row.coded) };

    ghost view = { λ w. left w.task w.stage };

    ghost invariant = { λ w. Stands w.task w.stage };
}

/// Whether it is known at once that there is no match.
#[tactic(auto, using(crate::proofs::StageLemmas::never))]
fn has_none(
    alloc: Global,
    shapes: &Shapes,
    pattern: &Pattern,
    term: &Term,
    variables: &[(u32, SortId)],
) -> Result<bool, NoMemory>
    requires named { variables.now ≡ all_variables pattern.now }
    requires valid { IsValid shapes.now term.now }
    requires canonical { IsCanonical shapes.now term.now }
    ensures { IfOk result (λ none. IsTrue none → all_matches shapes.now pattern.now term.now ≡ []) }
{
    match variables {
        [] => Ok(false),
        [first, ..] => has_none_from(alloc, shapes, pattern, term, variables, *first),
    }
}

/// The same, where this is the first variable.
#[tactic(auto, using(crate::proofs::StageLemmas::never))]
fn has_none_from(
    alloc: Global,
    shapes: &Shapes,
    pattern: &Pattern,
    term: &Term,
    variables: &[(u32, SortId)],
    first: (u32, SortId),
) -> Result<bool, NoMemory>
    requires named { variables.now ≡ all_variables pattern.now }
    requires begin { variables.now ≡ first ∷ drop 1 variables.now }
    requires valid { IsValid shapes.now term.now }
    requires canonical { IsCanonical shapes.now term.now }
    ensures { IfOk result (λ none. IsTrue none → all_matches shapes.now pattern.now term.now ≡ []) }
{
    let none = Items::new(alloc);
    let prefix = Prefix {
        shapes,
        variables,
        values: none.as_slice(),
        next: first.0,
    };
    match prefix.look(alloc, pattern, term)? {
        Look::Never => Ok(true),
        Look::Only(_) => Ok(false),
        Look::Any => Ok(false),
    }
}

impl<'a> Walk<'a> {
    /// A walk that has all matches to give. The parts of the term are made here, unless it is known
    /// at once that there is no match.
    #[tactic(auto, using(crate::proofs::StageLemmas::begin_all))]
    pub fn new(
        alloc: Global,
        shapes: &'a Shapes,
        pattern: &'a Pattern,
        term: &'a Term,
    ) -> Result<Walk<'a>, NoMemory>
        requires valid { IsValid shapes.now term.now }
        requires canonical { IsCanonical shapes.now term.now }
        ensures { IfOk result (λ walk. walk ≡ all_matches shapes.now pattern.now term.now) }
    {
        let variables = variables(alloc, pattern)?;
        if has_none(alloc, shapes, pattern, term, variables.as_slice())? {
            return Ok(Walk {
                task: Task {
                    shapes,
                    pattern,
                    term,
                    variables,
                    parts: Items::new(alloc),
                },
                stage: Stage::End,
            });
        }
        let parts = parts(alloc, shapes, term)?;
        Ok(Walk {
            task: Task {
                shapes,
                pattern,
                term,
                variables,
                parts,
            },
            stage: Stage::Begin,
        })
    }

    /// The next match; `None` where all were given. Where memory runs out, the walk is as it was.
    #[tactic(auto, using(crate::proofs::StageLemmas::turns))]
    pub fn next(&mut self, alloc: Global) -> Result<Option<Items<Term>>, NoMemory>
        ensures found { IfOk result (λ answer.
            IfSome answer (λ values. self.old ≡ values ∷ self.new)) }
        ensures absent { IfOk result (λ answer. answer ≡ None → (self.old ≡ []) × (self.new ≡ [])) }
        ensures err { OnErr result (self.new ≡ self.old) }
    {
        match self.task.advance(alloc, &self.stage)? {
            None => {
                self.stage = Stage::End;
                Ok(None)
            }
            Some(places) => {
                let values = self.task.values(alloc, places.as_slice())?;
                self.stage = Stage::After(places);
                Ok(Some(values))
            }
        }
    }
}

/// All matches of a pattern in a term, lexicographically, each once.
pub fn matches(
    alloc: Global,
    shapes: &Shapes,
    pattern: &Pattern,
    term: &Term,
) -> Result<Items<Items<Term>>, NoMemory>
    requires valid { IsValid shapes.now term.now }
    requires canonical { IsCanonical shapes.now term.now }
    ensures { IfOk result (λ all. all ≡ all_matches shapes.now pattern.now term.now) }
{
    let mut walk = Walk::new(alloc, shapes, pattern, term)?;
    let mut all = Items::new(alloc);
    while let Some(values) = walk.next(alloc)? {
        all.push(values)?;
    }
    Ok(all)
}
