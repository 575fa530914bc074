//! Tests of canonical form.

ghost use Rattle.std.specs.Prelude.{◌≡◌, ◌↔◌, IsTrue, IsFalse};
ghost use Rattle.std.specs.List.{All};
ghost use Rattle.elan_terms.specs.Ascending.{Ascends};
ghost use Rattle.elan_terms.specs.Canonical as spec;

use crate::{OpId, Shapes, Term, TermNode, compare, is_ac};

/// Whether the terms ascend in the term order; equal ones may follow one another.
pub fn is_ascending(terms: &[Term]) -> bool
    ensures { IsTrue result ↔ Ascends terms.now }
{
    match terms {
        [] => true,
        [first, rest @ ..] => match rest {
            [] => true,
            [second, ..] => !compare(first, second).is_gt() && is_ascending(rest),
        },
    }
}

fn is_headed(op: OpId, term: &Term) -> bool
    ensures { result ≡ spec.is_headed op term.now }
{
    match &term.node {
        TermNode::Int(_) => false,
        TermNode::App(f, _) => op.0 == f.0,
    }
}

fn has_none_headed(op: OpId, terms: &[Term]) -> bool
    ensures { IsTrue result ↔ All (λ t. IsFalse (spec.is_headed op t)) terms.now }
{
    match terms {
        [] => true,
        [first, rest @ ..] => !is_headed(op, first) && has_none_headed(op, rest),
    }
}

fn is_settled(shapes: &Shapes, op: OpId, terms: &[Term]) -> bool
    ensures { IsTrue result ↔ spec.IsSettled shapes.now op terms.now }
{
    !is_ac(shapes, op) || (has_none_headed(op, terms) && is_ascending(terms))
}

/// Whether the term is in canonical form: no argument of an associative and commutative operator is
/// headed by that operator, and its arguments ascend.
#[cycle(canonical)]
#[tactic(auto, using(crate::proofs::WeightLemmas::falls))]
pub fn is_canonical(shapes: &Shapes, term: &Term) -> bool
    ensures { IsTrue result ↔ spec.IsCanonical shapes.now term.now }
{
    match &term.node {
        TermNode::Int(_) => true,
        TermNode::App(op, args) => {
            is_settled(shapes, *op, args.as_slice()) && are_canonical(shapes, args.as_slice())
        }
    }
}

#[cycle(canonical)]
#[tactic(auto, using(crate::proofs::WeightLemmas::falls))]
fn are_canonical(shapes: &Shapes, terms: &[Term]) -> bool
    ensures { IsTrue result ↔ All (spec.IsCanonical shapes.now) terms.now }
{
    match terms {
        [] => true,
        [first, rest @ ..] => is_canonical(shapes, first) && are_canonical(shapes, rest),
    }
}
