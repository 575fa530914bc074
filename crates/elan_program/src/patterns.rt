//! The sort of a pattern, and the variables that it uses and binds.

ghost use Rattle.std.specs.Prelude.{◌≡◌, ◌++◌, IfOk, map, slice_get};
ghost use Rattle.std.specs.List.{list_all};
ghost use Rattle.elan_program.specs.Patterns as spec;

use crate::sound::is_sort;
use elan_terms::{OpId, Pattern, PatternNode, Shape, Shapes, SortId, variables};
use elan_text::NoMemory;
use std::alloc::Global;

#[tactic(auto, unfolding(crate::specs::Patterns::is_in_range))]
fn is_in_range(z: i64) -> bool
    ensures { result ≡ spec.is_in_range z }
{
    z.unsigned_abs() < 9_223_372_036_854_775_808
}

#[tactic(auto, unfolding(crate::specs::Patterns::sort_of_int))]
fn sort_of_int(shapes: &Shapes, z: i64) -> Option<SortId>
    ensures { result ≡ spec.sort_of_int shapes.now z }
{
    if is_in_range(z) { shapes.int } else { None }
}

/// Whether there are as many arguments as sorts, each a valid pattern of its sort.
#[cycle(pattern_sort)]
#[tactic(auto, using(crate::proofs::PatternLemmas::sort_rules))]
fn are_of_sorts(shapes: &Shapes, sorts: &[SortId], args: &[Pattern]) -> bool
    ensures { result ≡ spec.are_of_sorts sorts.now (map (spec.pattern_sort shapes.now) args.now) }
{
    match sorts {
        [] => args.is_empty(),
        [sort, others @ ..] => match args {
            [] => false,
            [first, rest @ ..] => {
                is_sort(pattern_sort(shapes, first), *sort) && are_of_sorts(shapes, others, rest)
            }
        },
    }
}

/// Whether each argument is a valid pattern of this sort.
#[cycle(pattern_sort)]
#[tactic(auto, using(crate::proofs::PatternLemmas::sort_rules))]
fn are_all_of(shapes: &Shapes, sort: SortId, args: &[Pattern]) -> bool
    ensures { result ≡ spec.are_all_of sort (map (spec.pattern_sort shapes.now) args.now) }
{
    match args {
        [] => true,
        [first, rest @ ..] => {
            is_sort(pattern_sort(shapes, first), sort) && are_all_of(shapes, sort, rest)
        }
    }
}

#[cycle(pattern_sort)]
#[tactic(auto, using(crate::proofs::PatternLemmas::sort_rules), unfolding(crate::specs::Patterns::args_fit))]
fn args_fit(shapes: &Shapes, shape: &Shape, args: &[Pattern]) -> bool
    ensures { result ≡ spec.args_fit shape.now (map (spec.pattern_sort shapes.now) args.now) }
{
    if shape.ac {
        2 <= args.len() && are_all_of(shapes, shape.sort, args)
    } else {
        are_of_sorts(shapes, shape.args.as_slice(), args)
    }
}

/// The sort of an operator over arguments that fit it.
#[cycle(pattern_sort)]
#[tactic(auto, using(crate::proofs::PatternLemmas::sort_rules))]
fn sort_over(shapes: &Shapes, op: OpId, args: &[Pattern]) -> Option<SortId>
    ensures { result
        ≡ spec.sort_over (slice_get shapes.now.shapes op.0)
        (map (spec.pattern_sort shapes.now) args.now) }
{
    match shapes.shapes.get(op.0 as usize) {
        None => None,
        Some(shape) => {
            if args_fit(shapes, shape, args) {
                Some(shape.sort)
            } else {
                None
            }
        }
    }
}

/// The sort of a pattern that is valid for the shapes, and `None` for another one.
#[cycle(pattern_sort)]
#[tactic(auto, using(crate::proofs::PatternLemmas::sort_rules))]
pub fn pattern_sort(shapes: &Shapes, pattern: &Pattern) -> Option<SortId>
    ensures { result ≡ spec.pattern_sort shapes.now pattern.now }
{
    match &pattern.node {
        PatternNode::Var(_, sort) => Some(*sort),
        PatternNode::Int(z) => sort_of_int(shapes, *z),
        PatternNode::App(op, args) => sort_over(shapes, *op, args.as_slice()),
    }
}

// ---- variables

fn is_bound(bound: &[(u32, SortId)], number: u32, sort: SortId) -> bool
    ensures { result ≡ spec.is_bound bound.now (number, sort) }
{
    match bound {
        [] => false,
        [first, rest @ ..] => {
            (first.0 == number && first.1.0 == sort.0) || is_bound(rest, number, sort)
        }
    }
}

#[cycle(uses)]
#[tactic(auto, using(crate::proofs::PatternLemmas::use_rules))]
fn all_use(bound: &[(u32, SortId)], patterns: &[Pattern]) -> bool
    ensures { result ≡ list_all (spec.uses bound.now) patterns.now }
{
    match patterns {
        [] => true,
        [first, rest @ ..] => uses(bound, first) && all_use(bound, rest),
    }
}

/// Whether each variable of a pattern is among these, with the same sort.
#[cycle(uses)]
#[tactic(auto, using(crate::proofs::PatternLemmas::use_rules))]
pub fn uses(bound: &[(u32, SortId)], pattern: &Pattern) -> bool
    ensures { result ≡ spec.uses bound.now pattern.now }
{
    match &pattern.node {
        PatternNode::Var(number, sort) => is_bound(bound, *number, *sort),
        PatternNode::Int(_) => true,
        PatternNode::App(_, args) => all_use(bound, args.as_slice()),
    }
}

fn are_numbered(sorts: usize, from: usize, found: &[(u32, SortId)]) -> bool
    ensures { result ≡ spec.are_numbered sorts from found.now }
{
    match found {
        [] => true,
        [first, rest @ ..] => {
            let number = first.0;
            if number as usize != from {
                return false;
            }
            (first.1.0 as usize) < sorts && are_numbered(sorts, number as usize + 1, rest)
        }
    }
}

/// The variables of a pattern, where they are fresh: numbered from this number on in order of first occurrence, with one
/// sort each, which is one of so many.
#[tactic(auto, unfolding(crate::specs::Patterns::binds))]
pub(crate) fn binds(
    alloc: Global,
    sorts: usize,
    from: usize,
    pattern: &Pattern,
) -> Result<bool, NoMemory>
    ensures { IfOk result (λ ok. ok ≡ spec.binds sorts from pattern.now) }
{
    let found = variables(alloc, pattern)?;
    Ok(are_numbered(sorts, from, found.as_slice()) && uses(found.as_slice(), pattern))
}
