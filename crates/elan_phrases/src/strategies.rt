//! Strategies, whose tokens are counted, with their trees.

ghost use Rattle.std.specs.Prelude.{◌≡◌, ◌<◌, ◌≤◌, length, IfOk};
ghost use Rattle.elan_phrases.specs.Input.{Reads};
ghost use Rattle.elan_phrases.specs.Strategies as grammar;

use crate::halt::Halt;
use crate::left::{Left, behind, boxed, made};
use crate::plan::{Plan, PlanNode, Planned};
use crate::reader::Reader;
use crate::span::Span;
use crate::symbol::Symbol;
use crate::symbol_set::SymbolSet;
use sqlite_items::Items;
use std::alloc::Global;

/// The most tokens that a strategy may have.
const MOST_STRATEGY_TOKENS: u32 = 256;

/// Takes a strategy.
#[tactic(auto, unfolding(crate::specs::Strategies::strategy_plan))]
pub fn strategy_plan(alloc: Global, reader: &mut Reader<'_>) -> Result<Planned, Halt>
    ensures read { Reads grammar.strategy_plan reader.old result reader.new }
    ensures shorter { IfOk result (λ _. length reader.new.rest < length reader.old.rest) }
{
    let first = reader.at();
    let found = strategy(alloc, reader, MOST_STRATEGY_TOKENS)?;
    let at = Span {
        first,
        past: reader.at(),
    };
    Ok(Planned {
        at,
        plan: found.value,
    })
}

/// Takes a strategy, where there is one.
#[tactic(auto, unfolding(crate::specs::Strategies::some_strategy, crate::specs::Strategies::strategy_plan, crate::specs::Strategies::strategy, elan_forms::specs::Form::nested))]
pub fn some_strategy(alloc: Global, reader: &mut Reader<'_>) -> Result<Option<Planned>, Halt>
    ensures read { Reads grammar.some_strategy reader.old result reader.new }
    ensures no_longer { IfOk result (λ _. length reader.new.rest ≤ length reader.old.rest) }
{
    if reader.sees_any(SymbolSet::BeginsStep) {
        let strategy = strategy_plan(alloc, reader)?;
        Ok(Some(strategy))
    } else {
        Ok(None)
    }
}

/// Takes a strategy, of whose tokens so many are left.
#[cycle(strategy)]
#[tactic(auto, using(crate::proofs::ExactStrategies::strategy_reads))]
fn strategy(alloc: Global, reader: &mut Reader<'_>, left: u32) -> Result<Left<Plan>, Halt>
    ensures read { Reads (grammar.strategy left) reader.old result reader.new }
    ensures fewer { IfOk result (λ now. now.left < left) }
{
    let first = step(alloc, reader, left)?;
    let first = behind(Items::new(alloc), first)?;
    let all = more_steps(alloc, reader, first)?;
    Ok(turned(all))
}

/// One step as itself, or more of them as a sequence.
fn turned(all: Left<Items<Plan>>) -> Left<Plan>
    ensures { result ≡ grammar.turned all }
{
    let Left { left, mut value } = all;
    if value.len() == 1 {
        if let Some(only) = value.pop() {
            return Left { left, value: only };
        }
    }
    made(PlanNode::Seq(value), left)
}

/// Takes each further step, behind its semicolon, and puts it behind those before.
#[cycle(strategy)]
#[tactic(auto, using(crate::proofs::ExactStrategies::more_steps_reads))]
fn more_steps(
    alloc: Global,
    reader: &mut Reader<'_>,
    before: Left<Items<Plan>>,
) -> Result<Left<Items<Plan>>, Halt>
    ensures read { Reads (grammar.more_steps grammar.strategy before) reader.old result reader.new }
    ensures fewer { IfOk result (λ now. now.left ≤ before.left) }
{
    let mut found = before;
    'steps: while reader.sees(Symbol::Semicolon) {
        found = one_step(alloc, reader, found)?;
    }
    Ok(found)
}

/// Takes a further step behind its semicolon, and puts it behind those before.
#[cycle(strategy)]
fn one_step(
    alloc: Global,
    reader: &mut Reader<'_>,
    before: Left<Items<Plan>>,
) -> Result<Left<Items<Plan>>, Halt>
    ensures read { Reads (grammar.one_step grammar.strategy before) reader.old result reader.new }
    ensures fewer { IfOk result (λ now. now.left < before.left) }
{
    let Left { left, value } = before;
    let left = reader.counted_sign(Symbol::Semicolon, left)?;
    let next = step(alloc, reader, left)?;
    behind(value, next)
}

/// Takes one step.
#[cycle(strategy)]
#[tactic(auto, unfolding(crate::specs::Strategies::step, crate::specs::Strategies::plain, crate::specs::Strategies::named, crate::specs::Strategies::inside, crate::specs::Strategies::all_of, crate::specs::Strategies::choice, crate::specs::Strategies::repeated, crate::specs::Strategies::iterated))]
fn step(alloc: Global, reader: &mut Reader<'_>, left: u32) -> Result<Left<Plan>, Halt>
    ensures read { Reads (grammar.step grammar.strategy left) reader.old result reader.new }
    ensures fewer { IfOk result (λ now. now.left < left) }
{
    if reader.sees_any(SymbolSet::PlainSteps) {
        plain(reader, left)
    } else if reader.sees_any(SymbolSet::Labels) {
        named(alloc, reader, left)
    } else if reader.sees(Symbol::LeftRound) {
        inside(alloc, reader, left)
    } else if reader.sees(Symbol::Dk) {
        all_of(alloc, reader, left)
    } else if reader.sees_any(SymbolSet::Choices) {
        choice(alloc, reader, left)
    } else if reader.sees(Symbol::Repeat) {
        repeated(alloc, reader, left)
    } else if reader.sees(Symbol::Iterate) {
        iterated(alloc, reader, left)
    } else {
        normal(alloc, reader, left)
    }
}

/// Takes `id` or `fail`.
#[tactic(auto, unfolding(crate::specs::Strategies::plain))]
fn plain(reader: &mut Reader<'_>, left: u32) -> Result<Left<Plan>, Halt>
    ensures read { Reads (grammar.plain left) reader.old result reader.new }
    ensures fewer { IfOk result (λ now. now.left < left) }
{
    if reader.sees(Symbol::Id) {
        let left = reader.counted_sign(Symbol::Id, left)?;
        Ok(made(PlanNode::Id, left))
    } else {
        let left = reader.counted_sign(Symbol::Fail, left)?;
        Ok(made(PlanNode::Fail, left))
    }
}

/// The name at a token, alone or over strategies.
fn called(at: u32, found: Left<Option<Items<Plan>>>) -> Left<Plan>
    ensures { result ≡ grammar.called at found }
{
    let Left { left, value } = found;
    match value {
        None => made(PlanNode::Name(at), left),
        Some(arms) => made(PlanNode::Applied(at, arms), left),
    }
}

/// Takes a label, which may have one or more strategies in parentheses behind it.
#[cycle(strategy)]
#[tactic(auto, unfolding(crate::specs::Strategies::named))]
fn named(alloc: Global, reader: &mut Reader<'_>, left: u32) -> Result<Left<Plan>, Halt>
    ensures read { Reads (grammar.named grammar.strategy left) reader.old result reader.new }
    ensures fewer { IfOk result (λ now. now.left < left) }
{
    let at = reader.at();
    let fits = reader.sees_any(SymbolSet::Labels);
    let left = reader.counted(fits, left)?;
    let found = some_arms(alloc, reader, left)?;
    Ok(called(at, found))
}

/// Takes one or more strategies in parentheses, where there are some.
#[cycle(strategy)]
#[tactic(auto, unfolding(crate::specs::Strategies::arms))]
fn some_arms(
    alloc: Global,
    reader: &mut Reader<'_>,
    left: u32,
) -> Result<Left<Option<Items<Plan>>>, Halt>
    ensures read { Reads
        (grammar.some_arms grammar.strategy left) reader.old result reader.new }
    ensures fewer { IfOk result (λ now. now.left ≤ left) }
{
    if reader.sees(Symbol::LeftRound) {
        let Left { left, value } = arms(alloc, reader, left)?;
        Ok(Left {
            left,
            value: Some(value),
        })
    } else {
        Ok(Left { left, value: None })
    }
}

/// Takes a strategy in parentheses.
#[cycle(strategy)]
#[tactic(auto, unfolding(crate::specs::Strategies::inside))]
fn inside(alloc: Global, reader: &mut Reader<'_>, left: u32) -> Result<Left<Plan>, Halt>
    ensures read { Reads (grammar.inside grammar.strategy left) reader.old result reader.new }
    ensures fewer { IfOk result (λ now. now.left < left) }
{
    let left = reader.counted_sign(Symbol::LeftRound, left)?;
    let Left { left, value } = strategy(alloc, reader, left)?;
    let left = reader.counted_sign(Symbol::RightRound, left)?;
    Ok(Left { left, value })
}

/// Takes `dk` and one or more strategies in parentheses.
#[cycle(strategy)]
#[tactic(auto, unfolding(crate::specs::Strategies::all_of))]
fn all_of(alloc: Global, reader: &mut Reader<'_>, left: u32) -> Result<Left<Plan>, Halt>
    ensures read { Reads (grammar.all_of grammar.strategy left) reader.old result reader.new }
    ensures fewer { IfOk result (λ now. now.left < left) }
{
    let left = reader.counted_sign(Symbol::Dk, left)?;
    let Left { left, value } = arms(alloc, reader, left)?;
    Ok(made(PlanNode::All(value), left))
}

/// Takes `dc` or `first`, which may have `one` behind it, and one or more strategies in parentheses.
#[cycle(strategy)]
#[tactic(auto, unfolding(crate::specs::Strategies::choice))]
fn choice(alloc: Global, reader: &mut Reader<'_>, left: u32) -> Result<Left<Plan>, Halt>
    ensures read { Reads (grammar.choice grammar.strategy left) reader.old result reader.new }
    ensures fewer { IfOk result (λ now. now.left < left) }
{
    let fits = reader.sees_any(SymbolSet::Choices);
    let left = reader.counted(fits, left)?;
    alternatives(alloc, reader, left)
}

/// Takes one or more strategies in parentheses, which may have `one` before them.
#[cycle(strategy)]
#[tactic(auto, unfolding(crate::specs::Strategies::alternatives))]
fn alternatives(alloc: Global, reader: &mut Reader<'_>, left: u32) -> Result<Left<Plan>, Halt>
    ensures read { Reads (grammar.alternatives grammar.strategy left) reader.old result reader.new }
    ensures fewer { IfOk result (λ now. now.left < left) }
{
    if reader.sees(Symbol::One) {
        let left = reader.counted_sign(Symbol::One, left)?;
        first_arms(alloc, reader, true, left)
    } else {
        first_arms(alloc, reader, false, left)
    }
}

/// Takes one or more strategies in parentheses, of which the first is meant, or its first item alone.
#[cycle(strategy)]
fn first_arms(
    alloc: Global,
    reader: &mut Reader<'_>,
    one: bool,
    left: u32,
) -> Result<Left<Plan>, Halt>
    ensures read { Reads
        (grammar.first_arms one grammar.strategy left) reader.old result reader.new }
    ensures fewer { IfOk result (λ now. now.left < left) }
{
    let Left { left, value: arms } = arms(alloc, reader, left)?;
    Ok(made(PlanNode::First { one, arms }, left))
}

/// Takes `repeat` with its `*`, and a strategy in parentheses.
#[cycle(strategy)]
#[tactic(auto, unfolding(crate::specs::Strategies::repeated))]
fn repeated(alloc: Global, reader: &mut Reader<'_>, left: u32) -> Result<Left<Plan>, Halt>
    ensures read { Reads (grammar.repeated grammar.strategy left) reader.old result reader.new }
    ensures fewer { IfOk result (λ now. now.left < left) }
{
    let left = reader.counted_sign(Symbol::Repeat, left)?;
    let left = reader.counted_sign(Symbol::Star, left)?;
    let Left { left, value } = inside(alloc, reader, left)?;
    let inner = boxed(alloc, value)?;
    Ok(made(PlanNode::Repeat(inner), left))
}

/// Takes `iterate` with its `*` or `+`, and a strategy in parentheses.
#[cycle(strategy)]
#[tactic(auto, unfolding(crate::specs::Strategies::iterated))]
fn iterated(alloc: Global, reader: &mut Reader<'_>, left: u32) -> Result<Left<Plan>, Halt>
    ensures read { Reads (grammar.iterated grammar.strategy left) reader.old result reader.new }
    ensures fewer { IfOk result (λ now. now.left < left) }
{
    let left = reader.counted_sign(Symbol::Iterate, left)?;
    rounds(alloc, reader, left)
}

/// Takes `*` or `+`, and a strategy in parentheses.
#[cycle(strategy)]
#[tactic(auto, unfolding(crate::specs::Strategies::rounds))]
fn rounds(alloc: Global, reader: &mut Reader<'_>, left: u32) -> Result<Left<Plan>, Halt>
    ensures read { Reads (grammar.rounds grammar.strategy left) reader.old result reader.new }
    ensures fewer { IfOk result (λ now. now.left < left) }
{
    if reader.sees(Symbol::Star) {
        let left = reader.counted_sign(Symbol::Star, left)?;
        let Left { left, value } = inside(alloc, reader, left)?;
        let inner = boxed(alloc, value)?;
        Ok(made(PlanNode::Iterate(inner), left))
    } else {
        let left = reader.counted_sign(Symbol::Plus, left)?;
        let Left { left, value } = inside(alloc, reader, left)?;
        let inner = boxed(alloc, value)?;
        Ok(made(PlanNode::IteratePlus(inner), left))
    }
}

/// Takes `normalise` and a strategy in parentheses.
#[cycle(strategy)]
#[tactic(auto, unfolding(crate::specs::Strategies::normal))]
fn normal(alloc: Global, reader: &mut Reader<'_>, left: u32) -> Result<Left<Plan>, Halt>
    ensures read { Reads (grammar.normal grammar.strategy left) reader.old result reader.new }
    ensures fewer { IfOk result (λ now. now.left < left) }
{
    let left = reader.counted_sign(Symbol::Normalise, left)?;
    let Left { left, value } = inside(alloc, reader, left)?;
    let inner = boxed(alloc, value)?;
    Ok(made(PlanNode::Normalise(inner), left))
}

/// Takes one or more strategies in parentheses.
#[cycle(strategy)]
#[tactic(auto, unfolding(crate::specs::Strategies::arms))]
fn arms(alloc: Global, reader: &mut Reader<'_>, left: u32) -> Result<Left<Items<Plan>>, Halt>
    ensures read { Reads (grammar.arms grammar.strategy left) reader.old result reader.new }
    ensures fewer { IfOk result (λ now. now.left < left) }
{
    let left = reader.counted_sign(Symbol::LeftRound, left)?;
    let first = strategy(alloc, reader, left)?;
    let first = behind(Items::new(alloc), first)?;
    let Left { left, value } = more_arms(alloc, reader, first)?;
    let left = reader.counted_sign(Symbol::RightRound, left)?;
    Ok(Left { left, value })
}

/// Takes each further strategy, behind its comma, and puts it behind those before.
#[cycle(strategy)]
#[tactic(auto, using(crate::proofs::ExactStrategies::more_arms_reads))]
fn more_arms(
    alloc: Global,
    reader: &mut Reader<'_>,
    before: Left<Items<Plan>>,
) -> Result<Left<Items<Plan>>, Halt>
    ensures read { Reads (grammar.more_arms grammar.strategy before) reader.old result reader.new }
    ensures fewer { IfOk result (λ now. now.left ≤ before.left) }
{
    let mut found = before;
    'arms: while reader.sees(Symbol::Comma) {
        found = one_arm(alloc, reader, found)?;
    }
    Ok(found)
}

/// Takes a further strategy behind its comma, and puts it behind those before.
#[cycle(strategy)]
fn one_arm(
    alloc: Global,
    reader: &mut Reader<'_>,
    before: Left<Items<Plan>>,
) -> Result<Left<Items<Plan>>, Halt>
    ensures read { Reads (grammar.one_arm grammar.strategy before) reader.old result reader.new }
    ensures fewer { IfOk result (λ now. now.left < before.left) }
{
    let Left { left, value } = before;
    let left = reader.counted_sign(Symbol::Comma, left)?;
    let next = strategy(alloc, reader, left)?;
    behind(value, next)
}
