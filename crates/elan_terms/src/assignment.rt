//! Assignments, and patterns under them.

ghost use Rattle.std.specs.Prelude.{◌≡◌, [], ◌∷◌, ◌++◌, map, IfOk};
ghost use Rattle.std.specs.List.{flat_map, filter};
ghost use Rattle.elan_terms.specs.Term as term_spec;
ghost use Rattle.elan_terms.specs.Match as spec;

use crate::pieces::prefixed_onto;
use crate::{
    NoMemory, Pattern, PatternNode, Shapes, SortId, Term, TermNode, copy, is_of_sort, node,
};
use sqlite_items::Items;
use std::alloc::Global;

#[tactic(auto, unfolding(crate::specs::Match::has_sort))]
fn has_sort(shapes: &Shapes, term: &Term, sort: SortId) -> bool
    ensures { result ≡ spec.has_sort shapes.now sort term.now }
{
    is_of_sort(shapes, term, sort)
}

fn extended_onto(
    alloc: Global,
    shapes: &Shapes,
    out: &mut Items<Items<Term>>,
    terms: &[Term],
    sort: SortId,
    later: &[Items<Term>],
) -> Result<(), NoMemory>
    ensures { IfOk result (λ _.
        out.new ≡ out.old ++ flat_map (spec.prefixed later.now)
        (filter (spec.has_sort shapes.now sort) terms.now)) }
{
    for term in terms {
        if has_sort(shapes, term, sort) {
            prefixed_onto(alloc, out, term, later)?;
        }
    }
    Ok(())
}

pub(crate) fn choices(
    alloc: Global,
    shapes: &Shapes,
    all: &[Term],
    variables: &[(u32, SortId)],
) -> Result<Items<Items<Term>>, NoMemory>
    ensures { IfOk result (λ lists. lists ≡ spec.choices shapes.now all.now variables.now) }
{
    let mut out = Items::new(alloc);
    match variables {
        [] => {
            out.push(Items::new(alloc))?;
            Ok(out)
        }
        [first, rest @ ..] => {
            let later = choices(alloc, shapes, all, rest)?;
            extended_onto(alloc, shapes, &mut out, all, first.1, later.as_slice())?;
            Ok(out)
        }
    }
}

fn bound(
    alloc: Global,
    variables: &[(u32, SortId)],
    terms: &[Term],
    number: u32,
) -> Result<Term, NoMemory>
    ensures { IfOk result (λ t. t ≡ spec.bound variables.now terms.now number) }
{
    match variables {
        [] => Ok(Term {
            node: TermNode::Int(0),
        }),
        [first, rest @ ..] => match terms {
            [] => Ok(Term {
                node: TermNode::Int(0),
            }),
            [term, more @ ..] => {
                if first.0 == number {
                    copy(alloc, term)
                } else {
                    bound(alloc, rest, more, number)
                }
            }
        },
    }
}

/// The canonical form of a pattern in which these terms, each canonical, stand for these variables,
/// and the integer 0 for any other.
#[cycle(instance)]
#[tactic(auto, using(crate::proofs::MatchLemmas::instances, crate::proofs::WeightLemmas::falls))]
pub fn instance(
    alloc: Global,
    shapes: &Shapes,
    variables: &[(u32, SortId)],
    terms: &[Term],
    pattern: &Pattern,
) -> Result<Term, NoMemory>
    ensures { IfOk result (λ t.
        t ≡ spec.instance shapes.now (spec.bound variables.now terms.now) pattern.now) }
{
    match &pattern.node {
        PatternNode::Var(number, _) => bound(alloc, variables, terms, *number),
        PatternNode::Int(z) => Ok(Term {
            node: TermNode::Int(*z),
        }),
        PatternNode::App(op, args) => {
            let mut done = Items::new(alloc);
            instances_onto(alloc, shapes, variables, terms, &mut done, args.as_slice())?;
            node(alloc, shapes, *op, done)
        }
    }
}

#[cycle(instance)]
#[tactic(auto, using(crate::proofs::MatchLemmas::instances, crate::proofs::WeightLemmas::falls))]
fn instances_onto(
    alloc: Global,
    shapes: &Shapes,
    variables: &[(u32, SortId)],
    terms: &[Term],
    out: &mut Items<Term>,
    patterns: &[Pattern],
) -> Result<(), NoMemory>
    ensures { IfOk result (λ _.
        out.new ≡ out.old ++ map
        (spec.instance shapes.now (spec.bound variables.now terms.now)) patterns.now) }
{
    match patterns {
        [] => Ok(()),
        [first, rest @ ..] => {
            out.push(instance(alloc, shapes, variables, terms, first)?)?;
            instances_onto(alloc, shapes, variables, terms, out, rest)
        }
    }
}
