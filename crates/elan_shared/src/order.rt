//! The term order of shared terms.

ghost use Rattle.std.specs.Prelude.{◌≡◌, ◌↔◌, IsTrue};
ghost use Rattle.std.specs.Cmp.Lexicographic.{slice_cmp};
ghost use Rattle.elan_terms.specs.Term as spec;

use crate::{Node, SharedTerm};
use std::cmp::Ordering;

/// The term order: integers by value, then applications by operator number, by number of
/// arguments, and by their arguments from left to right. It takes no memory.
#[cycle(compare)]
pub fn compare(a: &SharedTerm, b: &SharedTerm) -> Ordering
    ensures { result ≡ spec.order a.now b.now }
{
    match (a.node(), b.node()) {
        (Node::Int(x), Node::Int(y)) => x.cmp(&y),
        (Node::Int(_), Node::App(_, _)) => Ordering::Less,
        (Node::App(_, _), Node::Int(_)) => Ordering::Greater,
        (Node::App(f, xs), Node::App(g, ys)) => match f.0.cmp(&g.0) {
            Ordering::Equal => match xs.len().cmp(&ys.len()) {
                Ordering::Equal => compare_all(xs, ys),
                unequal => unequal,
            },
            unequal => unequal,
        },
    }
}

#[cycle(compare)]
#[tactic(auto, using(elan_terms::proofs::WeightLemmas::falls))]
fn compare_all(xs: &[SharedTerm], ys: &[SharedTerm]) -> Ordering
    ensures { result ≡ slice_cmp spec.order xs.now ys.now }
{
    match xs {
        [] => match ys {
            [] => Ordering::Equal,
            [_, ..] => Ordering::Less,
        },
        [x, xs @ ..] => match ys {
            [] => Ordering::Greater,
            [y, ys @ ..] => match compare(x, y) {
                Ordering::Equal => compare_all(xs, ys),
                unequal => unequal,
            },
        },
    }
}

/// Whether two terms are equal. It takes no memory.
#[tactic(auto, using(crate::proofs::OrderLemmas::decides))]
pub fn is_equal(a: &SharedTerm, b: &SharedTerm) -> bool
    ensures { IsTrue result ↔ (a.now ≡ b.now) }
{
    a.depth() == b.depth() && compare(a, b).is_eq()
}
