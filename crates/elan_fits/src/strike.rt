//! Terms struck from a list.

ghost use Rattle.std.specs.Prelude.{◌≡◌, [], ◌∷◌, IsTrue, IsFalse};
ghost use Rattle.elan_terms.specs.Term.{arms_under};
ghost use Rattle.elan_fits.specs.Looks as spec;
ghost use Rattle.elan_fits.specs.Looks.{Struck, Lacks};

use elan_terms::{OpId, Term, TermNode, compare};
use sqlite_items::Items;

fn first_same(term: &Term, terms: &[Term]) -> usize
    ensures { result ≡ spec.first_same term.now terms.now }
{
    let mut at = 0;
    for other in terms {
        if compare(term, other).is_eq() {
            return at;
        }
        at += 1;
    }
    at
}

#[tactic(auto, using(crate::proofs::StrikeLemmas::one))]
fn strike(left: &mut Items<Term>, term: &Term) -> bool
    ensures struck { IsTrue result → Struck left.old (term.now ∷ []) left.new }
    ensures lacks { IsFalse result → Lacks left.old (term.now ∷ []) }
{
    let at = first_same(term, left.as_slice());
    if at < left.len() {
        let _struck = left.remove(at);
        true
    } else {
        false
    }
}

#[tactic(auto, using(crate::proofs::StrikeLemmas::each))]
fn strike_each(left: &mut Items<Term>, terms: &[Term]) -> bool
    ensures struck { IsTrue result → Struck left.old terms.now left.new }
    ensures lacks { IsFalse result → Lacks left.old terms.now }
{
    match terms {
        [] => true,
        [first, rest @ ..] => strike(left, first) && strike_each(left, rest),
    }
}

/// Strikes from a list what a term brings under an operator. Answers whether it was all there.
#[tactic(auto, using(elan_terms::proofs::TermLemmas::arms))]
pub(crate) fn strike_arms(left: &mut Items<Term>, op: OpId, term: &Term) -> bool
    ensures struck { IsTrue result → Struck left.old (arms_under op term.now) left.new }
    ensures lacks { IsFalse result → Lacks left.old (arms_under op term.now) }
{
    match &term.node {
        TermNode::Int(_) => strike(left, term),
        TermNode::App(f, args) => {
            if op.0 == f.0 {
                strike_each(left, args.as_slice())
            } else {
                strike(left, term)
            }
        }
    }
}
