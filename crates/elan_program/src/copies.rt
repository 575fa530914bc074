//! Copies of strategies, conditions and rules.

ghost use Rattle.std.specs.Prelude.{◌≡◌, ◌++◌, IfOk};

use crate::{Clause, Rule, Strategy, StrategyNode};
use elan_terms::copy_pattern;
use elan_text::{Name, NoMemory};
use sqlite_items::{Boxed, Items};
use std::alloc::Global;

#[cycle(copy_strategy)]
#[tactic(auto, using(crate::proofs::StrategyWeights::strategy_falls))]
fn copy_arms(alloc: Global, arms: &[Strategy]) -> Result<Items<Strategy>, NoMemory>
    ensures { IfOk result (λ ss. ss ≡ arms.now) }
{
    let mut copies = Items::new(alloc);
    copy_arms_onto(alloc, &mut copies, arms)?;
    Ok(copies)
}

#[cycle(copy_strategy)]
#[tactic(auto, using(crate::proofs::StrategyWeights::strategy_falls))]
fn copy_arms_onto(
    alloc: Global,
    copies: &mut Items<Strategy>,
    arms: &[Strategy],
) -> Result<(), NoMemory>
    ensures { IfOk result (λ _. copies.new ≡ copies.old ++ arms.now) }
{
    match arms {
        [] => Ok(()),
        [first, rest @ ..] => {
            copies.push(copy_strategy(alloc, first)?)?;
            copy_arms_onto(alloc, copies, rest)
        }
    }
}

#[cycle(copy_strategy)]
#[tactic(auto, using(crate::proofs::StrategyWeights::strategy_falls))]
fn copy_inner(alloc: Global, inner: &Strategy) -> Result<Boxed<Strategy>, NoMemory>
    ensures { IfOk result (λ s. s ≡ inner.now) }
{
    Boxed::new(alloc, copy_strategy(alloc, inner)?)
}

/// A strategy of the same shape.
#[cycle(copy_strategy)]
#[tactic(auto, using(crate::proofs::StrategyWeights::strategy_falls))]
pub fn copy_strategy(alloc: Global, strategy: &Strategy) -> Result<Strategy, NoMemory>
    ensures { IfOk result (λ s. s ≡ strategy.now) }
{
    let node = match &strategy.node {
        StrategyNode::Id => StrategyNode::Id,
        StrategyNode::Fail => StrategyNode::Fail,
        StrategyNode::Label(rules) => {
            StrategyNode::Label(Items::from_slice(alloc, rules.as_slice())?)
        }
        StrategyNode::Call(number, actuals) => {
            StrategyNode::Call(*number, copy_arms(alloc, actuals.as_slice())?)
        }
        StrategyNode::Param(number) => StrategyNode::Param(*number),
        StrategyNode::Seq(arms) => StrategyNode::Seq(copy_arms(alloc, arms.as_slice())?),
        StrategyNode::All(arms) => StrategyNode::All(copy_arms(alloc, arms.as_slice())?),
        StrategyNode::First { one, arms } => StrategyNode::First {
            one: *one,
            arms: copy_arms(alloc, arms.as_slice())?,
        },
        StrategyNode::Repeat(inner) => StrategyNode::Repeat(copy_inner(alloc, inner.get())?),
        StrategyNode::Iterate(inner) => StrategyNode::Iterate(copy_inner(alloc, inner.get())?),
        StrategyNode::IteratePlus(inner) => {
            StrategyNode::IteratePlus(copy_inner(alloc, inner.get())?)
        }
        StrategyNode::Normalise(sort, inner) => {
            StrategyNode::Normalise(*sort, copy_inner(alloc, inner.get())?)
        }
        StrategyNode::Cong(op, arms) => {
            StrategyNode::Cong(*op, copy_arms(alloc, arms.as_slice())?)
        }
    };
    Ok(Strategy { node })
}

/// A condition of the same parts.
pub fn copy_clause(alloc: Global, clause: &Clause) -> Result<Clause, NoMemory>
    ensures { IfOk result (λ c. c ≡ clause.now) }
{
    match clause {
        Clause::If(test) => Ok(Clause::If(copy_pattern(alloc, test)?)),
        Clause::Where { left, by, of } => Ok(Clause::Where {
            left: copy_pattern(alloc, left)?,
            by: copy_strategy(alloc, by)?,
            of: copy_pattern(alloc, of)?,
        }),
    }
}

fn copy_clauses(alloc: Global, clauses: &[Clause]) -> Result<Items<Clause>, NoMemory>
    ensures { IfOk result (λ cs. cs ≡ clauses.now) }
{
    let mut copies = Items::new(alloc);
    for clause in clauses {
        copies.push(copy_clause(alloc, clause)?)?;
    }
    Ok(copies)
}

fn copy_label(alloc: Global, label: &Option<Name>) -> Result<Option<Name>, NoMemory>
    ensures { IfOk result (λ l. l ≡ label.now) }
{
    match label {
        None => Ok(None),
        Some(name) => Ok(Some(name.copy(alloc)?)),
    }
}

/// A rule of the same parts.
pub fn copy_rule(alloc: Global, rule: &Rule) -> Result<Rule, NoMemory>
    ensures { IfOk result (λ r. r ≡ rule.now) }
{
    Ok(Rule {
        label: copy_label(alloc, &rule.label)?,
        sort: rule.sort,
        left: copy_pattern(alloc, &rule.left)?,
        right: copy_pattern(alloc, &rule.right)?,
        clauses: copy_clauses(alloc, rule.clauses.as_slice())?,
    })
}
