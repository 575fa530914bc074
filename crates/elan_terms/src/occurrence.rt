//! The variables of a pattern.

ghost use Rattle.std.specs.Prelude.{◌≡◌, ◌==◌, ◌++◌, IfOk};
ghost use Rattle.std.specs.List.{flat_map, list_any};
ghost use Rattle.elan_terms.specs.Match as spec;

use crate::{NoMemory, Pattern, PatternNode, SortId};
use sqlite_items::Items;
use std::alloc::Global;

fn is_known(number: u32, known: &[(u32, SortId)]) -> bool
    ensures { result ≡ list_any (λ w. w.0 == number) known.now }
{
    match known {
        [] => false,
        [first, rest @ ..] => first.0 == number || is_known(number, rest),
    }
}

fn note(known: &mut Items<(u32, SortId)>, variable: (u32, SortId)) -> Result<(), NoMemory>
    ensures { IfOk result (λ _. known.new ≡ spec.noted known.old variable) }
{
    if is_known(variable.0, known.as_slice()) {
        Ok(())
    } else {
        known.push(variable)?;
        Ok(())
    }
}

fn add_new(known: &mut Items<(u32, SortId)>, more: &[(u32, SortId)]) -> Result<(), NoMemory>
    ensures { IfOk result (λ _. known.new ≡ spec.new_in known.old more.now) }
{
    match more {
        [] => Ok(()),
        [first, rest @ ..] => {
            note(known, *first)?;
            add_new(known, rest)
        }
    }
}

#[cycle(occurrences)]
#[tactic(auto, using(crate::proofs::MatchLemmas::pattern_rules, crate::proofs::WeightLemmas::falls))]
fn occurrences_onto(out: &mut Items<(u32, SortId)>, pattern: &Pattern) -> Result<(), NoMemory>
    ensures { IfOk result (λ _. out.new ≡ out.old ++ spec.occurrences pattern.now) }
{
    match &pattern.node {
        PatternNode::Var(number, sort) => {
            out.push((*number, *sort))?;
            Ok(())
        }
        PatternNode::Int(_) => Ok(()),
        PatternNode::App(_, args) => all_occurrences_onto(out, args.as_slice()),
    }
}

#[cycle(occurrences)]
#[tactic(auto, using(crate::proofs::MatchLemmas::pattern_rules, crate::proofs::WeightLemmas::falls))]
fn all_occurrences_onto(
    out: &mut Items<(u32, SortId)>,
    patterns: &[Pattern],
) -> Result<(), NoMemory>
    ensures { IfOk result (λ _. out.new ≡ out.old ++ flat_map spec.occurrences patterns.now) }
{
    match patterns {
        [] => Ok(()),
        [first, rest @ ..] => {
            occurrences_onto(out, first)?;
            all_occurrences_onto(out, rest)
        }
    }
}

/// The variables of a pattern with their sorts, in order of first occurrence, each number once.
#[tactic(auto, unfolding(crate::specs::Match::variables))]
pub fn variables(alloc: Global, pattern: &Pattern) -> Result<Items<(u32, SortId)>, NoMemory>
    ensures { IfOk result (λ vs. vs ≡ spec.variables pattern.now) }
{
    let mut all = Items::new(alloc);
    occurrences_onto(&mut all, pattern)?;
    let mut out = Items::new(alloc);
    add_new(&mut out, all.as_slice())?;
    Ok(out)
}
