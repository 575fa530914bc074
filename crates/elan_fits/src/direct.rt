//! The walk down a plain pattern and a term side by side.

ghost use Rattle.std.specs.Prelude.{◌≡◌, [], ◌∷◌, None, IfOk, IfSome, IsTrue};
ghost use Rattle.elan_terms.specs.Match.{variables, matches};
ghost use Rattle.elan_terms.specs.Valid.{IsValid};
ghost use Rattle.elan_terms.specs.Canonical.{IsCanonical};
ghost use Rattle.elan_fits.specs.Plain.{is_plain, AreNumbered};
ghost use Rattle.elan_fits.specs.Values as spec;
ghost use Rattle.elan_fits.specs.Values.{Answers};

use crate::NoMemory;
use crate::sorts::has_sort;
use elan_terms::{Pattern, PatternNode, Shapes, SortId, Term, TermNode, compare, copy};
use sqlite_items::{Items, at};
use std::alloc::Global;

/// Compares the term with the value that the variable has, or gives it to the variable if it has
/// none and the term is of its sort. Answers whether it is the value now.
#[tactic(auto, using(crate::proofs::StepLemmas::binds))]
fn bind(
    alloc: Global,
    shapes: &Shapes,
    first: u32,
    number: u32,
    sort: SortId,
    term: &Term,
    found: &mut Items<Term>,
) -> Result<bool, NoMemory>
    ensures { IfOk result (λ is_match. Answers is_match found.new
        (spec.with_place shapes.now first found.old (number, sort) term.now)) }
{
    match at(found.as_slice(), number.saturating_sub(first) as usize) {
        Some(value) => Ok(compare(value, term).is_eq()),
        None => {
            if has_sort(shapes, term, sort) {
                found.push(copy(alloc, term)?)?;
                Ok(true)
            } else {
                Ok(false)
            }
        }
    }
}

/// Whether the pattern, with the values found so far, can be the term; then the values of its other
/// variables are put to the end.
#[cycle(walk)]
#[tactic(auto, using(crate::proofs::StepLemmas::steps, elan_terms::proofs::WeightLemmas::falls))]
fn match_onto(
    alloc: Global,
    shapes: &Shapes,
    first: u32,
    pattern: &Pattern,
    term: &Term,
    found: &mut Items<Term>,
) -> Result<bool, NoMemory>
    ensures { IfOk result (λ is_match. Answers is_match found.new
        (spec.values_at shapes.now first found.old pattern.now term.now)) }
{
    match &pattern.node {
        PatternNode::Var(number, sort) => bind(alloc, shapes, first, *number, *sort, term, found),
        PatternNode::Int(z) => match &term.node {
            TermNode::Int(y) => Ok(z.cmp(y).is_eq()),
            TermNode::App(_, _) => Ok(false),
        },
        PatternNode::App(op, args) => match &term.node {
            TermNode::Int(_) => Ok(false),
            TermNode::App(f, terms) => {
                if op.0 == f.0 {
                    match_each(
                        alloc,
                        shapes,
                        first,
                        args.as_slice(),
                        terms.as_slice(),
                        found,
                    )
                } else {
                    Ok(false)
                }
            }
        },
    }
}

/// The same for each of some patterns and the term beside it.
#[cycle(walk)]
#[tactic(auto, using(crate::proofs::StepLemmas::steps, elan_terms::proofs::WeightLemmas::falls))]
fn match_each(
    alloc: Global,
    shapes: &Shapes,
    first: u32,
    patterns: &[Pattern],
    terms: &[Term],
    found: &mut Items<Term>,
) -> Result<bool, NoMemory>
    ensures { IfOk result (λ is_match. Answers is_match found.new
        (spec.values_at_each shapes.now first found.old patterns.now terms.now)) }
{
    match patterns {
        [] => match terms {
            [] => Ok(true),
            [_, ..] => Ok(false),
        },
        [pattern, others @ ..] => match terms {
            [] => Ok(false),
            [term, more @ ..] => {
                if match_onto(alloc, shapes, first, pattern, term, found)? {
                    match_each(alloc, shapes, first, others, more, found)
                } else {
                    Ok(false)
                }
            }
        },
    }
}

/// The only match of a pattern without associative and commutative operators: the values of its
/// variables, which are numbered from `first` on, in the order of their numbers. `None` exactly
/// where there is no match. The time is that of one walk down the pattern and the term.
#[tactic(auto, using(crate::proofs::MatchLemmas::answers))]
pub fn match_plain(
    alloc: Global,
    shapes: &Shapes,
    pattern: &Pattern,
    first: u32,
    term: &Term,
) -> Result<Option<Items<Term>>, NoMemory>
    requires plain { IsTrue (is_plain shapes.now pattern.now) }
    requires numbered { AreNumbered first (variables pattern.now) }
    requires valid { IsValid shapes.now term.now }
    requires canonical { IsCanonical shapes.now term.now }
    ensures found { IfOk result (λ answer. IfSome answer (λ values.
        matches shapes.now pattern.now term.now ≡ values ∷ [])) }
    ensures absent { IfOk result (λ answer. answer ≡ None →
        matches shapes.now pattern.now term.now ≡ []) }
{
    let mut found = Items::new(alloc);
    if match_onto(alloc, shapes, first, pattern, term, &mut found)? {
        Ok(Some(found))
    } else {
        Ok(None)
    }
}
