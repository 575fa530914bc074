//! Strategies as they are written, read at a sort.

ghost use Rattle.std.specs.Prelude.{◌≡◌, [], map, slice_get, slice_range, true, IfOk, Result, Some};
ghost use Rattle.elan_names.specs.declared.fault.Stopped.TheVariants.{Refused};
ghost use Rattle.elan_names.specs.Resolved as spec;
ghost use Rattle.elan_names.specs.Gives.{Gives, Leaves};
ghost use Rattle.elan_names.specs.Valid.{IsKnownAt, scope_in};
ghost use Rattle.elan_program.specs.declared.program.Parts.{Parts as PartsValue};
ghost use Rattle.elan_program.specs.Soundness.{is_sound};
ghost use Rattle.elan_program.specs.Validity.{is_valid_strategy};

use crate::fault::{Fault, Stopped};
use crate::heads::Target;
use crate::names::{applied, named};
use crate::site::{Body, Site};
use elan_phrases::{Plan, PlanNode};
use elan_program::{Operator, Strategy, StrategyNode};
use elan_terms::{OpId, SortId};
use elan_text::{Code, NoMemory};
use sqlite_items::{Boxed, Items};
use std::alloc::Global;

/// The strategy of a plan at a sort, with each name looked up where it stands: a parameter of the
/// body, a definition, the rules of a label, or an operator.
///
/// # Errors
///
/// The first refusal from the left, at the token of a name: `E07` for a definition of the sort with
/// another number of parameters, `E16` for two operators of one spelling, `E22` for a name that
/// is there for other sorts only, and `E20` for one that is not there; or `NoMemory`.
#[tactic(auto, using(crate::proofs::ValidLemmas::read_valid))]
pub fn resolve(
    alloc: Global,
    site: &Site<'_>,
    sort: SortId,
    plan: &Plan,
) -> Result<Strategy, Stopped>
    ensures exact { Gives result (spec.resolved (spec.seen site.now) plan.now sort) }

    // What is read is valid, in each program that has what is known here.
    ensures valid { let sc = spec.seen site.now in
        IfOk result (λ s. (p : PartsValue) → IsKnownAt p sc → is_sound p.signature ≡ true
        → is_valid_strategy p (scope_in sc.body) s sort ≡ true) }
{
    read(alloc, site, sort, plan)
}

/// The items from one number up to another, or those of them that there are.
fn part<T>(items: &[T], first: usize, past: usize) -> &[T]
    ensures { result.now ≡ slice_range items.now first past }
{
    let (_, rest) = items.split_at(first.min(items.len()));
    let count = past.saturating_sub(first);
    rest.split_at(count.min(rest.len())).0
}

/// The bytes of the token of a number, or none where there is none.
fn word_at<'a>(site: &Site<'a>, number: u32) -> &'a [u8]
    ensures { result.now ≡ spec.word_at (spec.seen site.now) number }
{
    match site.tokens.get(number as usize) {
        Some(token) => part(site.bytes, token.start as usize, token.end as usize),
        None => &[],
    }
}

/// A code that is refused at this token.
fn refused(code: Code, token: u32) -> Stopped
    ensures { result ≡ Refused record { code = code; token = token } }
{
    Stopped::Refused(Fault { code, token })
}

/// A strategy of this kind.
fn made(node: StrategyNode) -> Strategy
    ensures { result ≡ record { node = node } }
{
    Strategy { node }
}

/// Reads strategies at one sort, behind those before them.
#[cycle(read)]
#[tactic(auto, using(crate::proofs::ResolveLemmas::read_rules))]
fn all_onto(
    alloc: Global,
    site: &Site<'_>,
    sort: SortId,
    out: &mut Items<Strategy>,
    plans: &[Plan],
) -> Result<(), Stopped>
    ensures { Leaves result out.new
        (spec.all_at sort out.old (map (spec.resolved (spec.seen site.now)) plans.now)) }
{
    match plans {
        [] => Ok(()),
        [first, rest @ ..] => {
            let strategy = read(alloc, site, sort, first)?;
            out.push(strategy)?;
            all_onto(alloc, site, sort, out, rest)
        }
    }
}

/// Strategies at one sort.
#[cycle(read)]
#[tactic(auto, using(crate::proofs::ResolveLemmas::read_rules))]
fn all(
    alloc: Global,
    site: &Site<'_>,
    sort: SortId,
    plans: &[Plan],
) -> Result<Items<Strategy>, Stopped>
    ensures { Gives result
        (spec.all_at sort [] (map (spec.resolved (spec.seen site.now)) plans.now)) }
{
    let mut out = Items::new(alloc);
    all_onto(alloc, site, sort, &mut out, plans)?;
    Ok(out)
}

/// Reads strategies at a sort each, behind those before them.
#[cycle(read)]
#[tactic(auto, using(crate::proofs::ResolveLemmas::read_rules))]
fn each_onto(
    alloc: Global,
    site: &Site<'_>,
    sorts: &[SortId],
    out: &mut Items<Strategy>,
    plans: &[Plan],
) -> Result<(), Stopped>
    ensures { Leaves result out.new
        (spec.each_at sorts.now out.old (map (spec.resolved (spec.seen site.now)) plans.now)) }
{
    match sorts {
        [] => Ok(()),
        [sort, others @ ..] => match plans {
            [] => Ok(()),
            [first, rest @ ..] => {
                let strategy = read(alloc, site, *sort, first)?;
                out.push(strategy)?;
                each_onto(alloc, site, others, out, rest)
            }
        },
    }
}

/// Strategies at a sort each.
#[cycle(read)]
#[tactic(auto, using(crate::proofs::ResolveLemmas::read_rules))]
fn each(
    alloc: Global,
    site: &Site<'_>,
    sorts: &[SortId],
    plans: &[Plan],
) -> Result<Items<Strategy>, Stopped>
    ensures { Gives result
        (spec.each_at sorts.now [] (map (spec.resolved (spec.seen site.now)) plans.now)) }
{
    let mut out = Items::new(alloc);
    each_onto(alloc, site, sorts, &mut out, plans)?;
    Ok(out)
}

/// The sorts of the arguments of an operator.
fn sorts_of<'a>(operators: &'a [Operator], op: OpId) -> &'a [SortId]
    ensures { result.now ≡ spec.sorts_of (slice_get operators.now op.0) }
{
    match operators.get(op.0 as usize) {
        None => &[],
        Some(operator) => operator.args.as_slice(),
    }
}

/// A definition or an operator over strategies.
#[cycle(read)]
#[tactic(auto, using(crate::proofs::ResolveLemmas::read_rules))]
fn over(
    alloc: Global,
    site: &Site<'_>,
    sort: SortId,
    plans: &[Plan],
    target: Target,
) -> Result<Strategy, Stopped>
    ensures { Gives result (spec.over (spec.seen site.now) sort
        (map (spec.resolved (spec.seen site.now)) plans.now) target) }
{
    match target {
        Target::Definition(number) => {
            let arms = all(alloc, site, sort, plans)?;
            Ok(made(StrategyNode::Call(number, arms)))
        }
        Target::Operator(op) => {
            let arms = each(alloc, site, sorts_of(site.known.operators, op), plans)?;
            Ok(made(StrategyNode::Cong(op, arms)))
        }
    }
}

/// What the name at a token is over these strategies.
#[cycle(read)]
#[tactic(auto, using(crate::proofs::ResolveLemmas::read_rules, crate::proofs::ResolveLemmas::next_err))]
fn applied_at(
    alloc: Global,
    site: &Site<'_>,
    sort: SortId,
    token: u32,
    plans: &[Plan],
) -> Result<Strategy, Stopped>
    ensures { Gives result (spec.applied_at (spec.seen site.now) token sort
        (map (spec.resolved (spec.seen site.now)) plans.now)) }
{
    let target = target_at(alloc, site, sort, token, plans)?;
    over(alloc, site, sort, plans, target)
}

/// A strategy in a box.
#[cycle(read)]
#[tactic(auto, using(crate::proofs::ResolveLemmas::read_rules))]
fn inner(
    alloc: Global,
    site: &Site<'_>,
    sort: SortId,
    plan: &Plan,
) -> Result<Boxed<Strategy>, Stopped>
    ensures { Gives result (spec.resolved (spec.seen site.now) plan.now sort) }
{
    let strategy = read(alloc, site, sort, plan)?;
    Ok(Boxed::new(alloc, strategy)?)
}

/// A strategy as it is written, read at a sort, or its first refusal from the left.
#[cycle(read)]
#[tactic(auto, using(crate::proofs::ResolveLemmas::read_rules))]
fn read(alloc: Global, site: &Site<'_>, sort: SortId, plan: &Plan) -> Result<Strategy, Stopped>
    ensures { Gives result (spec.resolved (spec.seen site.now) plan.now sort) }
{
    match &plan.node {
        PlanNode::Id => Ok(made(StrategyNode::Id)),
        PlanNode::Fail => Ok(made(StrategyNode::Fail)),
        PlanNode::Name(token) => name_at(alloc, site, sort, *token),
        PlanNode::Applied(token, arms) => applied_at(alloc, site, sort, *token, arms.as_slice()),
        PlanNode::Seq(arms) => {
            let arms = all(alloc, site, sort, arms.as_slice())?;
            Ok(made(StrategyNode::Seq(arms)))
        }
        PlanNode::All(arms) => {
            let arms = all(alloc, site, sort, arms.as_slice())?;
            Ok(made(StrategyNode::All(arms)))
        }
        PlanNode::First { one, arms } => {
            let arms = all(alloc, site, sort, arms.as_slice())?;
            Ok(made(StrategyNode::First { one: *one, arms }))
        }
        PlanNode::Repeat(plan) => {
            let strategy = inner(alloc, site, sort, plan.get())?;
            Ok(made(StrategyNode::Repeat(strategy)))
        }
        PlanNode::Iterate(plan) => {
            let strategy = inner(alloc, site, sort, plan.get())?;
            Ok(made(StrategyNode::Iterate(strategy)))
        }
        PlanNode::IteratePlus(plan) => {
            let strategy = inner(alloc, site, sort, plan.get())?;
            Ok(made(StrategyNode::IteratePlus(strategy)))
        }
        PlanNode::Normalise(plan) => {
            let strategy = inner(alloc, site, sort, plan.get())?;
            Ok(made(StrategyNode::Normalise(sort, strategy)))
        }
    }
}

/// The number of the parameter of this name, which is the first that has it.
fn parameter_of(site: &Site<'_>, word: &[u8], body: &Body<'_>) -> Option<u32>
    ensures { result
        ≡ spec.parameter_of (spec.seen site.now) word.now (spec.seen_body body.now).parameters }
{
    let mut number: u32 = 0;
    'parameters: for token in body.parameters {
        if word_at(site, *token) == word {
            return Some(number);
        }
        number += 1;
    }
    None
}

/// A parameter of a body of this sort.
fn parameter(own: SortId, sort: SortId, number: u32) -> Result<Strategy, Code>
    ensures { (other : Result Strategy Code)
        → result ≡ spec.parameter_or own sort (Some number) other }
{
    if own.0 == sort.0 {
        Ok(made(StrategyNode::Param(number)))
    } else {
        Err(Code::E22)
    }
}

/// A name alone in a body.
fn name_in(
    alloc: Global,
    site: &Site<'_>,
    sort: SortId,
    word: &[u8],
    body: &Body<'_>,
) -> Result<Result<Strategy, Code>, NoMemory>
    ensures { IfOk result (λ r. r
        ≡ spec.name_in (spec.seen site.now) sort word.now (Some (spec.seen_body body.now))) }
{
    match parameter_of(site, word, body) {
        Some(number) => Ok(parameter(body.sort, sort, number)),
        None => named(alloc, &site.known, sort, word),
    }
}

/// What a word stands for alone.
#[tactic(auto, unfolding(crate::specs::Resolved::name_at))]
fn word_alone(
    alloc: Global,
    site: &Site<'_>,
    sort: SortId,
    word: &[u8],
) -> Result<Result<Strategy, Code>, NoMemory>
    ensures { IfOk result (λ r. r ≡ spec.name_at (spec.seen site.now) sort word.now) }
{
    match &site.body {
        None => named(alloc, &site.known, sort, word),
        Some(body) => name_in(alloc, site, sort, word, body),
    }
}

/// The strategy of the name at a token.
fn name_at(alloc: Global, site: &Site<'_>, sort: SortId, token: u32) -> Result<Strategy, Stopped>
    ensures { let sc = spec.seen site.now in
        Gives result (spec.refused_at token (spec.name_at sc sort (spec.word_at sc token))) }
{
    match word_alone(alloc, site, sort, word_at(site, token))? {
        Ok(strategy) => Ok(strategy),
        Err(code) => Err(refused(code, token)),
    }
}

/// What the name at a token stands for over so many strategies.
#[tactic(auto, using(crate::proofs::ResolveLemmas::read_rules), unfolding(crate::specs::Resolved::target_at))]
fn target_at(
    alloc: Global,
    site: &Site<'_>,
    sort: SortId,
    token: u32,
    plans: &[Plan],
) -> Result<Target, Stopped>
    ensures { Gives result (spec.target_at (spec.seen site.now) token sort
        (map (spec.resolved (spec.seen site.now)) plans.now)) }
{
    let word = word_at(site, token);
    match applied(alloc, &site.known, sort, word, plans.len())? {
        Ok(target) => Ok(target),
        Err(code) => Err(refused(code, token)),
    }
}
