//! Extension rules, and the unlabelled rules in the order in which they are tried.

ghost use Rattle.std.specs.Prelude.{◌≡◌, ◌∷◌, [], ◌++◌, map, IfOk};
ghost use Rattle.elan_program.specs.Extension as spec;

use crate::{Clause, Parts, Rule, Signature, copy_rule, copy_strategy};
use elan_terms::{OpId, Pattern, PatternNode, SortId, copy_pattern, variables};
use elan_text::NoMemory;
use sqlite_items::Items;
use std::alloc::Global;

#[tactic(auto, unfolding(crate::specs::Extension::moved))]
fn moved(from: u32, number: u32) -> u32
    ensures { result ≡ spec.moved from number }
{
    if number < from {
        number
    } else {
        number.saturating_add(1)
    }
}

/// The pattern with this number left free: from it on, each variable has the next number.
#[cycle(shifted)]
#[tactic(auto, using(crate::proofs::ShiftLemmas::shifts))]
fn shifted(alloc: Global, from: u32, pattern: &Pattern) -> Result<Pattern, NoMemory>
    ensures { IfOk result (λ p. p ≡ spec.shifted from pattern.now) }
{
    match &pattern.node {
        PatternNode::Var(number, sort) => Ok(Pattern {
            node: PatternNode::Var(moved(from, *number), *sort),
        }),
        PatternNode::Int(z) => Ok(Pattern {
            node: PatternNode::Int(*z),
        }),
        PatternNode::App(op, args) => {
            let mut done = Items::new(alloc);
            shifted_onto(alloc, from, &mut done, args.as_slice())?;
            Ok(Pattern {
                node: PatternNode::App(*op, done),
            })
        }
    }
}

#[cycle(shifted)]
#[tactic(auto, using(crate::proofs::ShiftLemmas::shifts))]
fn shifted_onto(
    alloc: Global,
    from: u32,
    out: &mut Items<Pattern>,
    patterns: &[Pattern],
) -> Result<(), NoMemory>
    ensures { IfOk result (λ _. out.new ≡ out.old ++ map (spec.shifted from) patterns.now) }
{
    match patterns {
        [] => Ok(()),
        [first, rest @ ..] => {
            out.push(shifted(alloc, from, first)?)?;
            shifted_onto(alloc, from, out, rest)
        }
    }
}

fn shifted_clause(alloc: Global, from: u32, clause: &Clause) -> Result<Clause, NoMemory>
    ensures { IfOk result (λ c. c ≡ spec.shifted_clause from clause.now) }
{
    match clause {
        Clause::If(test) => Ok(Clause::If(shifted(alloc, from, test)?)),
        Clause::Where { left, by, of } => Ok(Clause::Where {
            left: shifted(alloc, from, left)?,
            by: copy_strategy(alloc, by)?,
            of: shifted(alloc, from, of)?,
        }),
    }
}

fn shifted_clauses(alloc: Global, from: u32, clauses: &[Clause]) -> Result<Items<Clause>, NoMemory>
    ensures { IfOk result (λ cs. cs ≡ map (spec.shifted_clause from) clauses.now) }
{
    let mut out = Items::new(alloc);
    for clause in clauses {
        out.push(shifted_clause(alloc, from, clause)?)?;
    }
    Ok(out)
}

/// An operator over a pattern and a variable.
fn with_variable(
    alloc: Global,
    op: OpId,
    pattern: Pattern,
    number: u32,
    sort: SortId,
) -> Result<Pattern, NoMemory>
    ensures { IfOk result
        (λ p. p ≡ spec.app_pattern op (pattern ∷ spec.var_pattern number sort ∷ [])) }
{
    let mut args = Items::new(alloc);
    args.push(pattern)?;
    args.push(Pattern {
        node: PatternNode::Var(number, sort),
    })?;
    Ok(Pattern {
        node: PatternNode::App(op, args),
    })
}

#[tactic(auto, unfolding(crate::specs::Extension::extended_by))]
fn extended_by(alloc: Global, op: OpId, number: u32, rule: &Rule) -> Result<Rule, NoMemory>
    ensures { IfOk result (λ r. r ≡ spec.extended_by op number rule.now) }
{
    let left = copy_pattern(alloc, &rule.left)?;
    let right = shifted(alloc, number, &rule.right)?;
    Ok(Rule {
        label: None,
        sort: rule.sort,
        left: with_variable(alloc, op, left, number, rule.sort)?,
        right: with_variable(alloc, op, right, number, rule.sort)?,
        clauses: shifted_clauses(alloc, number, rule.clauses.as_slice())?,
    })
}

#[tactic(auto, using(crate::proofs::ShiftLemmas::heads))]
fn head_op(pattern: &Pattern) -> Option<OpId>
    ensures { result ≡ spec.head_op pattern.now }
{
    match &pattern.node {
        PatternNode::App(op, _) => Some(*op),
        PatternNode::Var(_, _) => None,
        PatternNode::Int(_) => None,
    }
}

#[tactic(auto, unfolding(crate::specs::Extension::fresh))]
fn fresh(alloc: Global, left: &Pattern) -> Result<u32, NoMemory>
    ensures { IfOk result (λ k. k ≡ spec.fresh left.now) }
{
    let count = variables(alloc, left)?.len();
    Ok(u32::try_from(count).unwrap_or(u32::MAX))
}

/// The extension rule of a rule: `f(l, Z) => f(r, Z)` with the same conditions, where the rule has
/// no label and its left side is headed by an associative and commutative operator f.
#[tactic(auto, unfolding(crate::specs::Extension::extension))]
pub fn extension(
    alloc: Global,
    signature: &Signature,
    rule: &Rule,
) -> Result<Option<Rule>, NoMemory>
    ensures { IfOk result (λ r. r ≡ spec.extension signature.now rule.now) }
{
    if rule.label.is_some() {
        return Ok(None);
    }
    match head_op(&rule.left) {
        None => Ok(None),
        Some(op) => {
            if signature.is_ac(op) {
                let number = fresh(alloc, &rule.left)?;
                Ok(Some(extended_by(alloc, op, number, rule)?))
            } else {
                Ok(None)
            }
        }
    }
}

/// The extension of each rule, or `None` where it has none.
pub(crate) fn extensions(
    alloc: Global,
    signature: &Signature,
    rules: &[Rule],
) -> Result<Items<Option<Rule>>, NoMemory>
    ensures { IfOk result (λ all. all ≡ map (spec.extension signature.now) rules.now) }
{
    let mut out = Items::new(alloc);
    for rule in rules {
        out.push(extension(alloc, signature, rule)?)?;
    }
    Ok(out)
}

#[tactic(auto, unfolding(crate::specs::Extension::tried_by))]
fn tried_by(alloc: Global, signature: &Signature, rule: &Rule) -> Result<Items<Rule>, NoMemory>
    ensures { IfOk result (λ rules. rules ≡ spec.tried_by signature.now rule.now) }
{
    let mut out = Items::new(alloc);
    if rule.label.is_some() {
        return Ok(out);
    }
    out.push(copy_rule(alloc, rule)?)?;
    match extension(alloc, signature, rule)? {
        None => Ok(out),
        Some(longer) => {
            out.push(longer)?;
            Ok(out)
        }
    }
}

/// The unlabelled rules in the order in which they are tried, each with its extension directly
/// after it.
#[tactic(auto, unfolding(crate::specs::Extension::unlabelled))]
pub(crate) fn unlabelled(alloc: Global, parts: &Parts) -> Result<Items<Rule>, NoMemory>
    ensures { IfOk result (λ rules. rules ≡ spec.unlabelled parts.now) }
{
    let mut out = Items::new(alloc);
    for rule in parts.rules.as_slice() {
        let rules = tried_by(alloc, &parts.signature, rule)?;
        out.append(rules)?;
    }
    Ok(out)
}
