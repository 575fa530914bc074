//! The test of validity.

ghost use Rattle.std.specs.Prelude.{◌↔◌, IsTrue};
ghost use Rattle.std.specs.List.{All, AllZip};
ghost use Rattle.elan_terms.specs.Valid as spec;

use crate::{OpId, Shape, Shapes, SortId, Term, TermNode, is_of_sort};

fn is_number(shapes: &Shapes, z: i64) -> bool
    ensures { IsTrue result ↔ spec.IsNumber shapes.now z }
{
    z != i64::MIN && shapes.int.is_some()
}

fn has_all_of_sort(shapes: &Shapes, terms: &[Term], sort: SortId) -> bool
    ensures { IsTrue result ↔ All (λ t. spec.HasSort shapes.now t sort) terms.now }
{
    match terms {
        [] => true,
        [first, rest @ ..] => {
            is_of_sort(shapes, first, sort) && has_all_of_sort(shapes, rest, sort)
        }
    }
}

fn has_sorts(shapes: &Shapes, terms: &[Term], sorts: &[SortId]) -> bool
    ensures { IsTrue result ↔ AllZip (spec.HasSort shapes.now) terms.now sorts.now }
{
    match terms {
        [] => sorts.is_empty(),
        [first, rest @ ..] => match sorts {
            [] => false,
            [sort, more @ ..] => is_of_sort(shapes, first, *sort) && has_sorts(shapes, rest, more),
        },
    }
}

fn takes(shapes: &Shapes, shape: &Shape, terms: &[Term]) -> bool
    ensures { IsTrue result ↔ spec.Takes shapes.now shape.now terms.now }
{
    if shape.ac {
        2 <= terms.len() && has_all_of_sort(shapes, terms, shape.sort)
    } else {
        has_sorts(shapes, terms, shape.args.as_slice())
    }
}

fn is_allowed(shapes: &Shapes, op: OpId, terms: &[Term]) -> bool
    ensures { IsTrue result ↔ spec.IsAllowed shapes.now op terms.now }
{
    match shapes.shapes.get(op.0 as usize) {
        None => false,
        Some(shape) => takes(shapes, shape, terms),
    }
}

/// Whether the shapes allow each integer and each application in the term.
#[cycle(valid)]
#[tactic(auto, using(crate::proofs::WeightLemmas::falls))]
pub fn is_valid(shapes: &Shapes, term: &Term) -> bool
    ensures { IsTrue result ↔ spec.IsValid shapes.now term.now }
{
    match &term.node {
        TermNode::Int(z) => is_number(shapes, *z),
        TermNode::App(op, args) => {
            is_allowed(shapes, *op, args.as_slice()) && are_valid(shapes, args.as_slice())
        }
    }
}

#[cycle(valid)]
#[tactic(auto, using(crate::proofs::WeightLemmas::falls))]
fn are_valid(shapes: &Shapes, terms: &[Term]) -> bool
    ensures { IsTrue result ↔ All (spec.IsValid shapes.now) terms.now }
{
    match terms {
        [] => true,
        [first, rest @ ..] => is_valid(shapes, first) && are_valid(shapes, rest),
    }
}
