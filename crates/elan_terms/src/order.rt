//! The term order.

ghost use Rattle.std.specs.Prelude.{◌≡◌};
ghost use Rattle.std.specs.Cmp.Lexicographic.{slice_cmp};
ghost use Rattle.elan_terms.specs.Term as spec;

use crate::{Term, TermNode};
use std::cmp::Ordering;

/// The term order: integers by value, then applications by operator number, by number of
/// arguments, and by their arguments from left to right.
#[cycle(compare)]
#[tactic(auto, using(crate::proofs::TermLemmas::orders, crate::proofs::WeightLemmas::falls))]
pub fn compare(a: &Term, b: &Term) -> Ordering
    ensures { result ≡ spec.order a.now b.now }
{
    match (&a.node, &b.node) {
        (TermNode::Int(x), TermNode::Int(y)) => x.cmp(y),
        (TermNode::Int(_), TermNode::App(_, _)) => Ordering::Less,
        (TermNode::App(_, _), TermNode::Int(_)) => Ordering::Greater,
        (TermNode::App(f, xs), TermNode::App(g, ys)) => match f.0.cmp(&g.0) {
            Ordering::Equal => match xs.len().cmp(&ys.len()) {
                Ordering::Equal => compare_all(xs.as_slice(), ys.as_slice()),
                unequal => unequal,
            },
            unequal => unequal,
        },
    }
}

#[cycle(compare)]
#[tactic(auto, using(crate::proofs::TermLemmas::orders, crate::proofs::WeightLemmas::falls))]
fn compare_all(xs: &[Term], ys: &[Term]) -> Ordering
    ensures { result ≡ slice_cmp spec.order xs.now ys.now }
{
    match xs {
        [] => match ys {
            [] => Ordering::Equal,
            [_, ..] => Ordering::Less,
        },
        [x, xs @ ..] => match ys {
            [] => Ordering::Greater,
            [y, ys @ ..] => match compare(x, y) {
                Ordering::Equal => compare_all(xs, ys),
                unequal => unequal,
            },
        },
    }
}
