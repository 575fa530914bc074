//! How deep a term is.

ghost use Rattle.std.specs.Prelude.{◌≡◌, ◌-◌, ◌^◌, min, map, nat_lt};
ghost use Rattle.elan_terms.specs.Term as spec;

use crate::{Term, TermNode};

/// The depth: 1 for an integer or a constant. A term past `u64::MAX` answers `u64::MAX`.
#[cycle(depth)]
#[tactic(auto, using(crate::proofs::TermLemmas::depths, crate::proofs::WeightLemmas::falls))]
pub fn depth(term: &Term) -> u64
    ensures { result ≡ min (spec.depth term.now) (2 ^ 64 - 1) }
{
    match &term.node {
        TermNode::Int(_) => 1,
        TermNode::App(_, args) => greatest(args.as_slice()).saturating_add(1),
    }
}

#[cycle(depth)]
#[tactic(auto, using(crate::proofs::TermLemmas::depths, crate::proofs::WeightLemmas::falls))]
fn greatest(terms: &[Term]) -> u64
    ensures { result ≡ min (spec.greatest (map spec.depth terms.now)) (2 ^ 64 - 1) }
{
    match terms {
        [] => 0,
        [first, rest @ ..] => depth(first).max(greatest(rest)),
    }
}

/// Whether a term is deeper than this.
pub fn is_deeper(term: &Term, limit: u32) -> bool
    ensures { result ≡ nat_lt limit (spec.depth term.now) }
{
    u64::from(limit) < depth(term)
}
