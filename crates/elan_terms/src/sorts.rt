//! The sort of a term.

ghost use Rattle.std.specs.Prelude.{◌≡◌, slice_get};
ghost use Rattle.elan_terms.specs.Term as term_spec;
ghost use Rattle.elan_terms.specs.Match as spec;

use crate::{OpId, Shapes, SortId, Term, TermNode};

fn op_sort(shapes: &Shapes, op: OpId) -> Option<SortId>
    ensures { result ≡ term_spec.shape_sort (slice_get shapes.now.shapes op.0) }
{
    match shapes.shapes.get(op.0 as usize) {
        None => None,
        Some(shape) => Some(shape.sort),
    }
}

/// The sort of a term, or none where the shapes do not have it.
#[tactic(auto, using(crate::proofs::MatchLemmas::sorts))]
pub fn sort_of(shapes: &Shapes, term: &Term) -> Option<SortId>
    ensures { result ≡ term_spec.sort_of shapes.now term.now }
{
    match &term.node {
        TermNode::Int(_) => shapes.int,
        TermNode::App(op, _) => op_sort(shapes, *op),
    }
}

/// Whether the sort of a term is there and is this one.
pub fn is_of_sort(shapes: &Shapes, term: &Term, sort: SortId) -> bool
    ensures { result ≡ spec.is_sort (term_spec.sort_of shapes.now term.now) sort }
{
    match sort_of(shapes, term) {
        None => false,
        Some(own) => own.0 == sort.0,
    }
}
