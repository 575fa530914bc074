//! The variables that are bound, and the numbers that they get.

ghost use Rattle.std.specs.Prelude.{◌≡◌, ◌<◌, ◌^◌, ◌++◌, false, length, map, reverse, IfOk, OnOk};
ghost use Rattle.std.specs.List.{list_all, list_any};
ghost use Rattle.elan_terms.specs.Match.{variables as variables_in};
ghost use Rattle.elan_program.specs.Patterns as used;
ghost use Rattle.elan_clauses.specs.Gives.{Gives};
ghost use Rattle.elan_clauses.specs.Texts as texts;
ghost use Rattle.elan_clauses.specs.Rules as spec;

use crate::bound_variables::BoundVariables;
use crate::refusing::refused;
use elan_modules::LoadedText;
use elan_program::{Clause, Rule};
use elan_syntax::Span;
use elan_terms::{Pattern, PatternNode, SortId, variables};
use elan_text::{Code, NoMemory, Stop};
use sqlite_items::Items;
use std::alloc::Global;

/// Whether one of these variables has the number of one that is bound.
fn is_any_numbered_in(bound: &BoundVariables, found: &[(u32, SortId)]) -> bool
    ensures { result ≡ list_any (texts.is_numbered_in bound.now) found.now }
{
    match found {
        [] => false,
        [first, rest @ ..] => bound.has_number(first.0) || is_any_numbered_in(bound, rest),
    }
}

#[cycle(uses)]
#[tactic(auto, using(elan_program::proofs::PatternLemmas::use_rules))]
fn all_use(bound: &BoundVariables, patterns: &[Pattern]) -> bool
    ensures { result ≡ list_all (used.uses bound.now) patterns.now }
{
    match patterns {
        [] => true,
        [first, rest @ ..] => uses(bound, first) && all_use(bound, rest),
    }
}

/// Whether each variable of a pattern is bound, at its sort.
#[cycle(uses)]
#[tactic(auto, using(elan_program::proofs::PatternLemmas::use_rules))]
fn uses(bound: &BoundVariables, pattern: &Pattern) -> bool
    ensures { result ≡ used.uses bound.now pattern.now }
{
    match &pattern.node {
        PatternNode::Var(number, sort) => bound.is_bound(*number, *sort),
        PatternNode::Int(_) => true,
        PatternNode::App(_, args) => all_use(bound, args.as_slice()),
    }
}

/// A text whose variables are all bound.
pub(crate) fn closed(
    alloc: Global,
    text: &LoadedText,
    at: Span,
    bound: &BoundVariables,
    pattern: Pattern,
) -> Result<Pattern, Stop>
    ensures { Gives result (texts.closed text.now at bound.now pattern) }
{
    if uses(bound, &pattern) {
        Ok(pattern)
    } else {
        Err(refused(alloc, text, at.first, Code::E18))
    }
}

/// A text of which no variable is bound.
pub(crate) fn fresh(
    alloc: Global,
    text: &LoadedText,
    at: Span,
    bound: &BoundVariables,
    pattern: Pattern,
) -> Result<Pattern, Stop>
    ensures exact { Gives result (texts.fresh text.now at bound.now pattern) }
    ensures fresh { IfOk result
        (λ p. list_any (texts.is_numbered_in bound.now) (variables_in p) ≡ false) }
{
    let found = variables(alloc, &pattern)?;
    if is_any_numbered_in(bound, found.as_slice()) {
        Err(refused(alloc, text, at.first, Code::E19))
    } else {
        Ok(pattern)
    }
}

/// The variables of a pattern in order of first occurrence.
#[tactic(auto, using(crate::proofs::BoundLemmas::bound_first))]
pub(crate) fn bound_in(alloc: Global, pattern: &Pattern) -> Result<BoundVariables, NoMemory>
    ensures { IfOk result (λ b. b ≡ variables_in pattern.now) }
{
    let mut bound = BoundVariables::new(alloc);
    bound.bind_all(variables(alloc, pattern)?.as_slice())?;
    Ok(bound)
}

/// Binds the variables of a pattern, none of which is bound, behind the others.
#[tactic(auto, using(crate::proofs::BoundLemmas::bound_behind))]
pub(crate) fn bind_fresh(
    alloc: Global,
    bound: &mut BoundVariables,
    pattern: &Pattern,
) -> Result<(), NoMemory>
    requires { list_any (texts.is_numbered_in bound.old) (variables_in pattern.now) ≡ false }
    ensures { OnOk result (bound.new ≡ bound.old ++ variables_in pattern.now) }
{
    bound.bind_all(variables(alloc, pattern)?.as_slice())?;
    Ok(())
}

/// A pattern with its variables numbered by their places.
#[cycle(numbered_so)]
#[tactic(auto, using(crate::proofs::TextLemmas::numbered_rules))]
fn numbered_so(
    alloc: Global,
    order: &BoundVariables,
    pattern: &Pattern,
) -> Result<Pattern, NoMemory>
    requires { length order.now < 2 ^ 32 }
    ensures { IfOk result (λ p. p ≡ spec.numbered_so order.now pattern.now) }
{
    match &pattern.node {
        PatternNode::Var(number, sort) => Ok(Pattern {
            node: PatternNode::Var(order.place_in(*number) as u32, *sort),
        }),
        PatternNode::Int(z) => Ok(Pattern {
            node: PatternNode::Int(*z),
        }),
        PatternNode::App(op, args) => {
            let mut done = Items::new(alloc);
            numbered_onto(alloc, order, &mut done, args.as_slice())?;
            Ok(Pattern {
                node: PatternNode::App(*op, done),
            })
        }
    }
}

#[cycle(numbered_so)]
#[tactic(auto, using(crate::proofs::TextLemmas::numbered_rules))]
fn numbered_onto(
    alloc: Global,
    order: &BoundVariables,
    out: &mut Items<Pattern>,
    patterns: &[Pattern],
) -> Result<(), NoMemory>
    requires { length order.now < 2 ^ 32 }
    ensures { IfOk result (λ _. out.new ≡ out.old ++ map (spec.numbered_so order.now) patterns.now) }
{
    match patterns {
        [] => Ok(()),
        [first, rest @ ..] => {
            out.push(numbered_so(alloc, order, first)?)?;
            numbered_onto(alloc, order, out, rest)
        }
    }
}

fn numbered_clause(
    alloc: Global,
    order: &BoundVariables,
    clause: Clause,
) -> Result<Clause, NoMemory>
    requires { length order.now < 2 ^ 32 }
    ensures { IfOk result (λ c. c ≡ spec.numbered_clause order.now clause) }
{
    match clause {
        Clause::If(test) => Ok(Clause::If(numbered_so(alloc, order, &test)?)),
        Clause::Where { left, by, of } => {
            let left = numbered_so(alloc, order, &left)?;
            let of = numbered_so(alloc, order, &of)?;
            Ok(Clause::Where { left, by, of })
        }
    }
}

/// These conditions with their variables numbered by their places, the last one first.
#[tactic(auto, using(crate::proofs::TurnLemmas::back_step))]
fn numbered_back(
    alloc: Global,
    order: &BoundVariables,
    mut clauses: Items<Clause>,
) -> Result<Items<Clause>, NoMemory>
    requires { length order.now < 2 ^ 32 }
    ensures { IfOk result
        (λ cs. cs ≡ reverse (map (spec.numbered_clause order.now) clauses)) }
{
    let mut out = Items::new(alloc);
    'clauses: while let Some(clause) = clauses.pop() {
        out.push(numbered_clause(alloc, order, clause)?)?;
    }
    Ok(out)
}

/// These conditions, the last one first.
#[tactic(auto, using(crate::proofs::TurnLemmas::turn_step))]
fn turned(alloc: Global, mut clauses: Items<Clause>) -> Result<Items<Clause>, NoMemory>
    ensures { IfOk result (λ cs. cs ≡ reverse clauses) }
{
    let mut out = Items::new(alloc);
    'clauses: while let Some(clause) = clauses.pop() {
        out.push(clause)?;
    }
    Ok(out)
}

#[tactic(auto, using(crate::proofs::TurnLemmas::turned_twice))]
fn numbered_clauses(
    alloc: Global,
    order: &BoundVariables,
    clauses: Items<Clause>,
) -> Result<Items<Clause>, NoMemory>
    requires { length order.now < 2 ^ 32 }
    ensures { IfOk result (λ cs. cs ≡ map (spec.numbered_clause order.now) clauses) }
{
    let back = numbered_back(alloc, order, clauses)?;
    let all = turned(alloc, back)?;
    Ok(all)
}

/// A rule with its variables numbered by their places.
pub fn numbered_rule(alloc: Global, order: &BoundVariables, rule: Rule) -> Result<Rule, NoMemory>
    requires { length order.now < 2 ^ 32 }
    ensures { IfOk result (λ r. r ≡ spec.numbered_rule (rule, order.now)) }
{
    let left = numbered_so(alloc, order, &rule.left)?;
    let right = numbered_so(alloc, order, &rule.right)?;
    let clauses = numbered_clauses(alloc, order, rule.clauses)?;
    Ok(Rule {
        label: rule.label,
        sort: rule.sort,
        left,
        right,
        clauses,
    })
}
