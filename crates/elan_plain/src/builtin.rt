//! The values of built-in operations on terms.

ghost use Rattle.std.specs.Prelude.{◌≡◌, ◌∷◌, [], None, Some};
ghost use Rattle.elan_program.specs.Builtins as spec;
ghost use Rattle.elan_builtin.specs.Stands.{Stands, term_of as spec_term_of};

use elan_builtin::{Operand, Reduced, reduce};
use elan_program::{Builtin, Signature, Truth};
use elan_terms::{OpId, Term, TermNode, compare};
use sqlite_items::Items;
use std::alloc::Global;

/// Whether a term is the constant `true`.
pub(crate) fn is_true(truth: &Option<Truth>, term: &Term) -> bool
    ensures { result ≡ spec.is_true truth.now term.now }
{
    match truth_of(truth, term) {
        None => false,
        Some(value) => value,
    }
}

#[tactic(auto, unfolding(elan_program::specs::Builtins::constant))]
fn constant(truth: &Truth, op: OpId) -> Option<bool>
    ensures { result ≡ spec.constant truth.now op [] }
{
    if op.0 == truth.yes.0 {
        Some(true)
    } else if op.0 == truth.no.0 {
        Some(false)
    } else {
        None
    }
}

#[tactic(auto, using(crate::proofs::BuiltinLemmas::truths))]
fn constant_in(truth: &Truth, term: &Term) -> Option<bool>
    ensures { result ≡ spec.truth_of (Some truth.now) term.now }
{
    match &term.node {
        TermNode::Int(_) => None,
        TermNode::App(op, args) => match args.as_slice() {
            [] => constant(truth, *op),
            [_, ..] => None,
        },
    }
}

/// The truth value that a term stands for, if it is one of the two constants.
#[tactic(auto, using(crate::proofs::BuiltinLemmas::truths))]
fn truth_of(truth: &Option<Truth>, term: &Term) -> Option<bool>
    ensures { result ≡ spec.truth_of truth.now term.now }
{
    match truth {
        None => None,
        Some(truth) => constant_in(truth, term),
    }
}

/// What an application is to an operation.
#[tactic(auto, using(crate::proofs::BuiltinLemmas::stands))]
fn truth_operand(truth: &Option<Truth>, term: &Term) -> Operand
    requires { spec.int_of term.now ≡ None }
    ensures { Stands truth.now result term.now }
{
    match truth_of(truth, term) {
        None => Operand::Other,
        Some(value) => Operand::Truth(value),
    }
}

/// What a term is to an operation.
#[tactic(auto, using(crate::proofs::BuiltinLemmas::stands))]
fn operand(truth: &Option<Truth>, term: &Term) -> Operand
    ensures { Stands truth.now result term.now }
{
    match &term.node {
        TermNode::Int(z) => Operand::Int(*z),
        TermNode::App(_, _) => truth_operand(truth, term),
    }
}

/// The constant of a truth value, where there are truth values.
fn said(alloc: Global, truth: &Option<Truth>, value: bool) -> Option<Term>
    ensures { result ≡ spec.said truth.now value }
{
    match truth {
        None => None,
        Some(truth) => Some(Term {
            node: TermNode::App(if value { truth.yes } else { truth.no }, Items::new(alloc)),
        }),
    }
}

/// The value of an operation as a term.
fn term_of(alloc: Global, truth: &Option<Truth>, value: Option<Reduced>) -> Option<Term>
    ensures { result ≡ spec_term_of truth.now value }
{
    match value {
        None => None,
        Some(Reduced::Int(z)) => Some(Term {
            node: TermNode::Int(z),
        }),
        Some(Reduced::Truth(value)) => said(alloc, truth, value),
    }
}

#[tactic(auto, using(crate::proofs::BuiltinLemmas::reductions))]
fn of_one(alloc: Global, truth: &Option<Truth>, builtin: Builtin, term: &Term) -> Option<Term>
    ensures { result ≡ spec.value_by truth.now (Some builtin) (term.now ∷ []) }
{
    let value = reduce(builtin, [operand(truth, term)].as_slice(), false);
    term_of(alloc, truth, value)
}

#[tactic(auto, using(crate::proofs::BuiltinLemmas::reductions))]
fn of_two(
    alloc: Global,
    truth: &Option<Truth>,
    builtin: Builtin,
    first: &Term,
    second: &Term,
) -> Option<Term>
    ensures { result ≡ spec.value_by truth.now (Some builtin) (first.now ∷ second.now ∷ []) }
{
    let operands = [operand(truth, first), operand(truth, second)];
    let same = compare(first, second).is_eq();
    term_of(alloc, truth, reduce(builtin, operands.as_slice(), same))
}

fn value_by(
    alloc: Global,
    truth: &Option<Truth>,
    builtin: Option<Builtin>,
    args: &[Term],
) -> Option<Term>
    ensures { result ≡ spec.value_by truth.now builtin args.now }
{
    match builtin {
        None => None,
        Some(builtin) => match args {
            [term] => of_one(alloc, truth, builtin, term),
            [first, second] => of_two(alloc, truth, builtin, first, second),
            _ => None,
        },
    }
}

#[tactic(auto, using(crate::proofs::BuiltinLemmas::values))]
fn value_in(alloc: Global, signature: &Signature, term: &Term) -> Option<Term>
    ensures { result ≡ spec.value_in signature.now term.now }
{
    match &term.node {
        TermNode::Int(_) => None,
        TermNode::App(op, args) => {
            value_by(
                alloc,
                &signature.truth,
                signature.builtin(*op),
                args.as_slice(),
            )
        }
    }
}

/// The value of a reducible operation in the place of the term, and any other term as it is.
#[tactic(auto, unfolding(elan_program::specs::Builtins::reduced))]
pub(crate) fn reduced(alloc: Global, signature: &Signature, term: Term) -> Term
    ensures { result ≡ spec.reduced signature.now term }
{
    match value_in(alloc, signature, &term) {
        None => term,
        Some(value) => value,
    }
}
