//! Matches, as they are defined: every assignment is tried.

ghost use Rattle.std.specs.Prelude.{◌≡◌, IfOk};
ghost use Rattle.std.specs.List.{filter};
ghost use Rattle.elan_terms.specs.Match as spec;

use crate::assignment::{choices, instance};
use crate::{
    NoMemory, Pattern, PatternNode, Shapes, SortId, Term, TermNode, compare, copy_onto, parts,
    variables,
};
use sqlite_items::Items;
use std::alloc::Global;

#[tactic(auto, unfolding(crate::specs::Match::fits))]
fn fits(
    alloc: Global,
    shapes: &Shapes,
    variables: &[(u32, SortId)],
    pattern: &Pattern,
    term: &Term,
    values: &[Term],
) -> Result<bool, NoMemory>
    ensures { IfOk result (λ yes.
        yes ≡ spec.fits shapes.now variables.now pattern.now term.now values.now) }
{
    let made = instance(alloc, shapes, variables, values, pattern)?;
    Ok(compare(&made, term).is_eq())
}

fn kept(
    alloc: Global,
    shapes: &Shapes,
    variables: &[(u32, SortId)],
    pattern: &Pattern,
    term: &Term,
    lists: Items<Items<Term>>,
) -> Result<Items<Items<Term>>, NoMemory>
    ensures { IfOk result (λ all.
        all ≡ filter (spec.fits shapes.now variables.now pattern.now term.now) lists) }
{
    let mut out = Items::new(alloc);
    for list in lists.as_slice() {
        if fits(alloc, shapes, variables, pattern, term, list.as_slice())? {
            let mut values = Items::new(alloc);
            copy_onto(alloc, &mut values, list.as_slice())?;
            out.push(values)?;
        }
    }
    Ok(out)
}

/// Whether the two may have one head.
#[tactic(auto, using(crate::proofs::HeadLemmas::heads))]
fn may_fit(pattern: &Pattern, term: &Term) -> bool
    ensures { result ≡ spec.may_fit pattern.now term.now }
{
    match (&pattern.node, &term.node) {
        (PatternNode::Var(_, _), _) => true,
        (PatternNode::Int(z), TermNode::Int(y)) => z.cmp(y).is_eq(),
        (PatternNode::Int(_), TermNode::App(_, _)) => false,
        (PatternNode::App(_, _), TermNode::Int(_)) => false,
        (PatternNode::App(op, _), TermNode::App(f, _)) => op.0 == f.0,
    }
}

/// The matches of a pattern in a canonical term, lexicographically, each once.
#[tactic(auto, using(crate::proofs::HeadLemmas::different), unfolding(crate::specs::Match::matches, crate::specs::Match::assignments))]
pub fn matches(
    alloc: Global,
    shapes: &Shapes,
    pattern: &Pattern,
    term: &Term,
) -> Result<Items<Items<Term>>, NoMemory>
    ensures { IfOk result (λ all. all ≡ spec.matches shapes.now pattern.now term.now) }
{
    if !may_fit(pattern, term) {
        return Ok(Items::new(alloc));
    }
    let variables = variables(alloc, pattern)?;
    let parts = parts(alloc, shapes, term)?;
    let all = choices(alloc, shapes, parts.as_slice(), variables.as_slice())?;
    kept(alloc, shapes, variables.as_slice(), pattern, term, all)
}
