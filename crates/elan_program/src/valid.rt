//! Whether strategies, conditions, rules and programs are valid.

ghost use Rattle.std.specs.Prelude.{◌≡◌, ◌++◌, IfOk, IfSome, IfNone, None, Some, length, slice_get};
ghost use Rattle.std.specs.List.{list_all};
ghost use Rattle.elan_terms.specs.Match as match_spec;
ghost use Rattle.elan_program.specs.Signature.{shapes_of};
ghost use Rattle.elan_program.specs.Validity as spec;

use crate::patterns::{binds, pattern_sort, uses};
use crate::sound::{MOST, has_sort_id, is_sort, same_sort, truth_sort};
use crate::{Clause, Named, Parts, Rule, Scope, Signature, Strategy, StrategyNode};
use elan_terms::{OpId, Pattern, Shapes, SortId, variables};
use elan_text::NoMemory;
use sqlite_items::Items;
use std::alloc::Global;

// ---- strategies

fn do_ascend(numbers: &[u32]) -> bool
    ensures { result ≡ spec.do_ascend numbers.now }
{
    match numbers {
        [] => true,
        [first, rest @ ..] => match rest {
            [] => true,
            [second, ..] => first < second && do_ascend(rest),
        },
    }
}

fn is_rule_for(rules: &[Rule], sort: SortId, number: u32) -> bool
    ensures { result ≡ spec.is_rule_for sort (slice_get rules.now number) }
{
    match rules.get(number as usize) {
        None => false,
        Some(rule) => same_sort(rule.sort, sort),
    }
}

fn are_rules_for(rules: &[Rule], sort: SortId, numbers: &[u32]) -> bool
    ensures { result ≡ list_all (λ k. spec.is_rule_for sort (slice_get rules.now k)) numbers.now }
{
    match numbers {
        [] => true,
        [first, rest @ ..] => {
            is_rule_for(rules, sort, *first) && are_rules_for(rules, sort, rest)
        }
    }
}

fn is_valid_label(parts: &Parts, sort: SortId, numbers: &[u32]) -> bool
    ensures { result ≡ spec.is_valid_label parts.now.rules sort numbers.now }
{
    do_ascend(numbers) && are_rules_for(parts.rules.as_slice(), sort, numbers)
}

fn is_valid_param(scope: Scope, sort: SortId, number: u32) -> bool
    ensures { result ≡ spec.is_valid_param scope sort number }
{
    match scope {
        Scope::Outside => false,
        Scope::Inside(count, own) => number < count && same_sort(own, sort),
    }
}

fn is_named_for(named: &[Named], sort: SortId, count: usize, number: u32) -> bool
    ensures { result ≡ spec.is_named_for sort count (slice_get named.now number) }
{
    match named.get(number as usize) {
        None => false,
        Some(there) => same_sort(there.sort, sort) && there.parameters as usize == count,
    }
}

/// The sorts of the arguments of an operator that is there and is not associative and commutative.
fn congruent_sorts(signature: &Signature, op: OpId) -> Option<&[SortId]>
    ensures found { IfSome result (λ sorts.
        spec.congruent_sorts (slice_get signature.now.operators op.0) ≡ Some sorts.now) }
    ensures absent { IfNone result (spec.congruent_sorts (slice_get signature.now.operators op.0)
        ≡ None) }
{
    match signature.operators.as_slice().get(op.0 as usize) {
        None => None,
        Some(operator) => {
            if operator.ac {
                None
            } else {
                Some(operator.args.as_slice())
            }
        }
    }
}

#[cycle(is_valid_strategy)]
#[tactic(auto, using(crate::proofs::ValidLemmas::strategy_rules))]
fn are_valid_strategies(parts: &Parts, scope: Scope, strategies: &[Strategy], sort: SortId) -> bool
    ensures { result
        ≡ list_all (λ s. spec.is_valid_strategy parts.now scope s sort) strategies.now }
{
    match strategies {
        [] => true,
        [first, rest @ ..] => {
            is_valid_strategy(parts, scope, first, sort)
                && are_valid_strategies(parts, scope, rest, sort)
        }
    }
}

/// Whether each strategy is valid at the sort of its place.
#[cycle(is_valid_strategy)]
#[tactic(auto, using(crate::proofs::ValidLemmas::strategy_rules))]
fn are_valid_each(parts: &Parts, scope: Scope, strategies: &[Strategy], sorts: &[SortId]) -> bool
    ensures { result
        ≡ spec.each_fits (spec.is_valid_strategy parts.now scope) strategies.now sorts.now }
{
    match strategies {
        [] => sorts.is_empty(),
        [first, rest @ ..] => match sorts {
            [] => false,
            [sort, others @ ..] => {
                is_valid_strategy(parts, scope, first, *sort)
                    && are_valid_each(parts, scope, rest, others)
            }
        },
    }
}

/// Whether a strategy is valid at a sort.
#[cycle(is_valid_strategy)]
#[tactic(auto, using(crate::proofs::ValidLemmas::strategy_rules))]
fn is_valid_strategy(parts: &Parts, scope: Scope, strategy: &Strategy, sort: SortId) -> bool
    ensures { result ≡ spec.is_valid_strategy parts.now scope strategy.now sort }
{
    match &strategy.node {
        StrategyNode::Id => true,
        StrategyNode::Fail => true,
        StrategyNode::Label(numbers) => is_valid_label(parts, sort, numbers.as_slice()),
        StrategyNode::Call(number, actuals) => {
            is_named_for(parts.named.as_slice(), sort, actuals.len(), *number)
                && are_valid_strategies(parts, scope, actuals.as_slice(), sort)
        }
        StrategyNode::Param(number) => is_valid_param(scope, sort, *number),
        StrategyNode::Seq(all) => are_valid_strategies(parts, scope, all.as_slice(), sort),
        StrategyNode::All(all) => are_valid_strategies(parts, scope, all.as_slice(), sort),
        StrategyNode::First { one: _, arms } => {
            are_valid_strategies(parts, scope, arms.as_slice(), sort)
        }
        StrategyNode::Repeat(inner) => is_valid_strategy(parts, scope, inner.get(), sort),
        StrategyNode::Iterate(inner) => is_valid_strategy(parts, scope, inner.get(), sort),
        StrategyNode::IteratePlus(inner) => is_valid_strategy(parts, scope, inner.get(), sort),
        StrategyNode::Normalise(place, inner) => {
            same_sort(*place, sort) && is_valid_strategy(parts, scope, inner.get(), sort)
        }
        StrategyNode::Cong(op, arms) => is_valid_congruence(parts, scope, *op, arms.as_slice()),
    }
}

/// Whether a congruence of these strategies is valid.
#[cycle(is_valid_strategy)]
#[tactic(auto, using(crate::proofs::ValidLemmas::strategy_rules))]
fn is_valid_congruence(parts: &Parts, scope: Scope, op: OpId, arms: &[Strategy]) -> bool
    ensures { result ≡ spec.congruence_fits (spec.is_valid_strategy parts.now scope) arms.now
        (spec.congruent_sorts (slice_get parts.now.signature.operators op.0)) }
{
    match congruent_sorts(&parts.signature, op) {
        None => false,
        Some(sorts) => !arms.is_empty() && are_valid_each(parts, scope, arms, sorts),
    }
}

// ---- conditions

fn is_truth(wanted: Option<SortId>, found: Option<SortId>) -> bool
    ensures { result ≡ spec.is_truth wanted found }
{
    match wanted {
        None => false,
        Some(sort) => is_sort(found, sort),
    }
}

fn are_joined(parts: &Parts, left: Option<SortId>, of: Option<SortId>, by: &Strategy) -> bool
    ensures { result ≡ spec.are_joined parts.now left of by.now }
{
    match left {
        None => false,
        Some(sort) => is_sort(of, sort) && is_valid_strategy(parts, Scope::Outside, by, sort),
    }
}

#[tactic(auto, unfolding(crate::specs::Validity::is_valid_if))]
fn is_valid_if(parts: &Parts, shapes: &Shapes, bound: &[(u32, SortId)], test: &Pattern) -> bool
    requires { shapes.now ≡ shapes_of parts.now.signature }
    ensures { result ≡ spec.is_valid_if parts.now bound.now test.now }
{
    uses(bound, test)
        && is_truth(
            truth_sort(&parts.signature.truth),
            pattern_sort(shapes, test),
        )
}

#[tactic(auto, unfolding(crate::specs::Validity::is_valid_where))]
fn is_valid_where(
    alloc: Global,
    parts: &Parts,
    shapes: &Shapes,
    bound: &[(u32, SortId)],
    left: &Pattern,
    by: &Strategy,
    of: &Pattern,
) -> Result<bool, NoMemory>
    requires { shapes.now ≡ shapes_of parts.now.signature }
    ensures { IfOk result
        (λ ok. ok ≡ spec.is_valid_where parts.now bound.now left.now by.now of.now) }
{
    let fresh = binds(alloc, parts.signature.sorts.len(), bound.len(), left)?;
    Ok(
        (uses(bound, of) && fresh)
            && are_joined(
                parts,
                pattern_sort(shapes, left),
                pattern_sort(shapes, of),
                by,
            ),
    )
}

/// The variables that are bound after a condition, where it is valid.
fn bound_after(
    alloc: Global,
    parts: &Parts,
    shapes: &Shapes,
    bound: Items<(u32, SortId)>,
    clause: &Clause,
) -> Result<Option<Items<(u32, SortId)>>, NoMemory>
    requires { shapes.now ≡ shapes_of parts.now.signature }
    ensures { IfOk result (λ r. r ≡ spec.bound_after parts.now bound clause.now) }
{
    match clause {
        Clause::If(test) => {
            if is_valid_if(parts, shapes, bound.as_slice(), test) {
                Ok(Some(bound))
            } else {
                Ok(None)
            }
        }
        Clause::Where { left, by, of } => {
            if is_valid_where(alloc, parts, shapes, bound.as_slice(), left, by, of)? {
                let mut more = bound;
                more.append(variables(alloc, left)?)?;
                Ok(Some(more))
            } else {
                Ok(None)
            }
        }
    }
}

/// The variables that are bound after all conditions, where they are valid.
fn bound_by(
    alloc: Global,
    parts: &Parts,
    shapes: &Shapes,
    bound: Items<(u32, SortId)>,
    clauses: &[Clause],
) -> Result<Option<Items<(u32, SortId)>>, NoMemory>
    requires { shapes.now ≡ shapes_of parts.now.signature }
    ensures { IfOk result (λ r. r ≡ spec.bound_by parts.now bound clauses.now) }
{
    match clauses {
        [] => Ok(Some(bound)),
        [first, rest @ ..] => match bound_after(alloc, parts, shapes, bound, first)? {
            None => Ok(None),
            Some(more) => bound_by(alloc, parts, shapes, more, rest),
        },
    }
}

// ---- rules and programs

fn is_bound_right(right: &Pattern, bound: Option<Items<(u32, SortId)>>) -> bool
    ensures { result ≡ spec.is_bound_right right.now bound }
{
    match bound {
        None => false,
        Some(bound) => uses(bound.as_slice(), right) && bound.len() < MOST,
    }
}

/// Whether the two sides of a rule are of its sort.
fn has_sides(parts: &Parts, shapes: &Shapes, rule: &Rule) -> bool
    requires { shapes.now ≡ shapes_of parts.now.signature }
    ensures { result ≡ spec.has_sides parts.now rule.now }
{
    (has_sort_id(&parts.signature, rule.sort)
        && is_sort(pattern_sort(shapes, &rule.left), rule.sort))
        && is_sort(pattern_sort(shapes, &rule.right), rule.sort)
}

#[tactic(auto, unfolding(crate::specs::Validity::is_valid_rule))]
fn is_valid_rule(
    alloc: Global,
    parts: &Parts,
    shapes: &Shapes,
    rule: &Rule,
) -> Result<bool, NoMemory>
    requires { shapes.now ≡ shapes_of parts.now.signature }
    ensures { IfOk result (λ ok. ok ≡ spec.is_valid_rule parts.now rule.now) }
{
    let fresh = binds(alloc, parts.signature.sorts.len(), 0, &rule.left)?;
    let first = variables(alloc, &rule.left)?;
    let bound = bound_by(alloc, parts, shapes, first, rule.clauses.as_slice())?;
    Ok(has_sides(parts, shapes, rule) && (fresh && is_bound_right(&rule.right, bound)))
}

fn are_valid_rules(
    alloc: Global,
    parts: &Parts,
    shapes: &Shapes,
    rules: &[Rule],
) -> Result<bool, NoMemory>
    requires { shapes.now ≡ shapes_of parts.now.signature }
    ensures { IfOk result (λ ok. ok ≡ list_all (spec.is_valid_rule parts.now) rules.now) }
{
    match rules {
        [] => Ok(true),
        [first, rest @ ..] => {
            if is_valid_rule(alloc, parts, shapes, first)? {
                are_valid_rules(alloc, parts, shapes, rest)
            } else {
                Ok(false)
            }
        }
    }
}

#[tactic(auto, unfolding(crate::specs::Validity::is_valid_named))]
fn is_valid_named(parts: &Parts, named: &Named) -> bool
    ensures { result ≡ spec.is_valid_named parts.now named.now }
{
    let scope = Scope::Inside(named.parameters, named.sort);
    has_sort_id(&parts.signature, named.sort)
        && is_valid_strategy(parts, scope, &named.body, named.sort)
}

fn are_valid_named(parts: &Parts, named: &[Named]) -> bool
    ensures { result ≡ list_all (spec.is_valid_named parts.now) named.now }
{
    match named {
        [] => true,
        [first, rest @ ..] => is_valid_named(parts, first) && are_valid_named(parts, rest),
    }
}

impl Parts {
    /// Whether these parts make a program, as `Program::new` asks. docs/LANGUAGE.md says what is
    /// valid.
    #[tactic(auto, unfolding(crate::specs::Validity::is_valid))]
    pub fn is_valid(&self, alloc: Global) -> Result<bool, NoMemory>
        ensures { IfOk result (λ ok. ok ≡ spec.is_valid self.now) }
    {
        let sound = self.signature.is_sound(alloc)?;
        let shapes = self.signature.shapes(alloc)?;
        let rules = are_valid_rules(alloc, self, &shapes, self.rules.as_slice())?;
        Ok(
            (sound && (self.rules.len() < MOST && self.named.len() < MOST))
                && (rules && are_valid_named(self, self.named.as_slice())),
        )
    }
}
