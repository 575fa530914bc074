//! From shared terms to terms with one owner, and back.

ghost use Rattle.std.specs.Prelude.{◌≡◌, ◌++◌, IfOk};

use crate::{Node, SharedTerm};
use elan_terms::{NoMemory, Term, TermNode};
use sqlite_items::Items;
use std::alloc::Global;

/// A copy with one owner.
#[cycle(to_owned)]
#[tactic(auto, using(elan_terms::proofs::WeightLemmas::falls))]
pub fn to_owned(alloc: Global, term: &SharedTerm) -> Result<Term, NoMemory>
    ensures { IfOk result (λ t. t ≡ term.now) }
{
    match term.node() {
        Node::Int(z) => Ok(Term {
            node: TermNode::Int(z),
        }),
        Node::App(op, terms) => {
            let mut args = Items::new(alloc);
            owned_onto(alloc, &mut args, terms)?;
            Ok(Term {
                node: TermNode::App(op, args),
            })
        }
    }
}

#[cycle(to_owned)]
#[tactic(auto, using(elan_terms::proofs::WeightLemmas::falls))]
fn owned_onto(alloc: Global, out: &mut Items<Term>, terms: &[SharedTerm]) -> Result<(), NoMemory>
    ensures { IfOk result (λ _. out.new ≡ out.old ++ terms.now) }
{
    match terms {
        [] => Ok(()),
        [first, rest @ ..] => {
            out.push(to_owned(alloc, first)?)?;
            owned_onto(alloc, out, rest)
        }
    }
}

/// A shared term that is equal to this one.
#[cycle(shared)]
#[tactic(auto, using(elan_terms::proofs::WeightLemmas::falls))]
pub fn shared(alloc: Global, term: &Term) -> Result<SharedTerm, NoMemory>
    ensures { IfOk result (λ t. t ≡ term.now) }
{
    match &term.node {
        TermNode::Int(z) => Ok(SharedTerm::int(*z)),
        TermNode::App(op, terms) => {
            let mut args = Items::new(alloc);
            shared_onto(alloc, &mut args, terms.as_slice())?;
            SharedTerm::app(alloc, *op, args)
        }
    }
}

#[cycle(shared)]
#[tactic(auto, using(elan_terms::proofs::WeightLemmas::falls))]
fn shared_onto(alloc: Global, out: &mut Items<SharedTerm>, terms: &[Term]) -> Result<(), NoMemory>
    ensures { IfOk result (λ _. out.new ≡ out.old ++ terms.now) }
{
    match terms {
        [] => Ok(()),
        [first, rest @ ..] => {
            out.push(shared(alloc, first)?)?;
            shared_onto(alloc, out, rest)
        }
    }
}
