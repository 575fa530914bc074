//! Canonical forms.

ghost use Rattle.std.specs.Prelude.{◌≡◌, ◌++◌, map, reverse, IfOk, OnOk};
ghost use Rattle.std.specs.List.{flat_map};
ghost use Rattle.elan_terms.specs.Term as spec;

use crate::{NoMemory, OpId, Shapes, Term, TermNode, compare, copy, copy_onto};
use sqlite_items::Items;
use std::alloc::Global;
use std::cmp::Ordering;

/// Whether an operator is there and is associative and commutative.
#[tactic(auto, unfolding(crate::specs::Term::is_ac))]
pub fn is_ac(shapes: &Shapes, op: OpId) -> bool
    ensures { result ≡ spec.is_ac shapes.now op }
{
    match shapes.shapes.get(op.0 as usize) {
        None => false,
        Some(shape) => shape.ac,
    }
}

#[tactic(auto, using(crate::proofs::TermLemmas::arms))]
fn arms_onto(alloc: Global, out: &mut Items<Term>, op: OpId, term: &Term) -> Result<(), NoMemory>
    ensures { IfOk result (λ _. out.new ≡ out.old ++ spec.arms_under op term.now) }
{
    match &term.node {
        TermNode::Int(_) => {
            out.push(copy(alloc, term)?)?;
            Ok(())
        }
        TermNode::App(f, args) => {
            if op.0 == f.0 {
                copy_onto(alloc, out, args.as_slice())
            } else {
                out.push(copy(alloc, term)?)?;
                Ok(())
            }
        }
    }
}

fn all_arms_onto(
    alloc: Global,
    out: &mut Items<Term>,
    op: OpId,
    terms: &[Term],
) -> Result<(), NoMemory>
    ensures { IfOk result (λ _. out.new ≡ out.old ++ flat_map (spec.arms_under op) terms.now) }
{
    for term in terms {
        arms_onto(alloc, out, op, term)?;
    }
    Ok(())
}

/// The terms from the last to the first.
fn turned(alloc: Global, terms: Items<Term>) -> Result<Vec<Term>, NoMemory>
    ensures { IfOk result (λ ts. ts.items ≡ reverse terms) }
{
    let mut left = terms;
    let mut out = Vec::new(alloc);
    while let Some(term) = left.pop() {
        out.push(term)?;
    }
    Ok(out)
}

/// Puts the terms into ascending order; equal ones all stay.
fn sort(terms: &mut Vec<Term>) -> Result<(), NoMemory>
    ensures { OnOk result (terms.new.items ≡ spec.ascending terms.old.items) }
{
    let by_order = |a: &Term, b: &Term| -> Ordering
        ensures { result ≡ spec.order a.now b.now }
    { compare(a, b) };
    terms.sort_by(by_order)
}

/// The terms in ascending order; equal ones all stay.
#[tactic(auto, using(crate::proofs::SortLemmas::sorting))]
pub(crate) fn ascending(alloc: Global, terms: Items<Term>) -> Result<Items<Term>, NoMemory>
    ensures { IfOk result (λ ts. ts ≡ spec.ascending terms) }
{
    let mut sorted = turned(alloc, terms)?;
    sort(&mut sorted)?;
    Ok(Items::from_vec(sorted))
}

/// The canonical node of canonical arguments.
#[tactic(auto, unfolding(crate::specs::Term::node))]
pub fn node(alloc: Global, shapes: &Shapes, op: OpId, args: Items<Term>) -> Result<Term, NoMemory>
    ensures { IfOk result (λ t. t ≡ spec.node shapes.now op args) }
{
    if is_ac(shapes, op) {
        let mut flat = Items::new(alloc);
        all_arms_onto(alloc, &mut flat, op, args.as_slice())?;
        let sorted = ascending(alloc, flat)?;
        Ok(Term {
            node: TermNode::App(op, sorted),
        })
    } else {
        Ok(Term {
            node: TermNode::App(op, args),
        })
    }
}

/// The canonical form.
#[cycle(canon)]
#[tactic(auto, using(crate::proofs::TermLemmas::canons, crate::proofs::WeightLemmas::falls))]
pub fn canon(alloc: Global, shapes: &Shapes, term: &Term) -> Result<Term, NoMemory>
    ensures { IfOk result (λ t. t ≡ spec.canon shapes.now term.now) }
{
    match &term.node {
        TermNode::Int(_) => copy(alloc, term),
        TermNode::App(op, args) => {
            let mut done = Items::new(alloc);
            canon_onto(alloc, shapes, &mut done, args.as_slice())?;
            node(alloc, shapes, *op, done)
        }
    }
}

#[cycle(canon)]
#[tactic(auto, using(crate::proofs::TermLemmas::canons, crate::proofs::WeightLemmas::falls))]
fn canon_onto(
    alloc: Global,
    shapes: &Shapes,
    out: &mut Items<Term>,
    terms: &[Term],
) -> Result<(), NoMemory>
    ensures { IfOk result (λ _. out.new ≡ out.old ++ map (spec.canon shapes.now) terms.now) }
{
    for term in terms {
        out.push(canon(alloc, shapes, term)?)?;
    }
    Ok(())
}
