//! The test of what patterns are meant.

ghost use Rattle.std.specs.Prelude.{◌≡◌};
ghost use Rattle.std.specs.List.{list_all};
ghost use Rattle.elan_fits.specs.Plain as spec;

use elan_terms::{Pattern, PatternNode, Shapes, is_ac};

/// Whether no operator of the pattern is associative and commutative.
#[cycle(plain)]
#[tactic(auto, using(crate::proofs::PlainLemmas::plain_rules, elan_terms::proofs::WeightLemmas::falls))]
pub fn is_plain(shapes: &Shapes, pattern: &Pattern) -> bool
    ensures { result ≡ spec.is_plain shapes.now pattern.now }
{
    match &pattern.node {
        PatternNode::Var(_, _) => true,
        PatternNode::Int(_) => true,
        PatternNode::App(op, args) => !is_ac(shapes, *op) && are_plain(shapes, args.as_slice()),
    }
}

#[cycle(plain)]
#[tactic(auto, using(crate::proofs::PlainLemmas::plain_rules, elan_terms::proofs::WeightLemmas::falls))]
fn are_plain(shapes: &Shapes, patterns: &[Pattern]) -> bool
    ensures { result ≡ list_all (spec.is_plain shapes.now) patterns.now }
{
    match patterns {
        [] => true,
        [first, rest @ ..] => is_plain(shapes, first) && are_plain(shapes, rest),
    }
}
