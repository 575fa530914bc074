//! What was taken of a strategy, whose tokens are counted.

ghost use Rattle.std.specs.Prelude.{◌≡◌, false, IfOk, IfErr};
ghost use Rattle.elan_phrases.specs.Input.{is_misfit};
ghost use Rattle.elan_phrases.specs.Strategies as spec;

use crate::halt::{Halt, pushed};
use crate::plan::{Plan, PlanNode};
use sqlite_items::{Boxed, Items};
use std::alloc::Global;

/// What was taken, and how many tokens are left behind it.
#[derive(Drop)]
pub(crate) struct Left<V> {
    pub(crate) left: u32,
    pub(crate) value: V,
}

/// A strategy of a kind.
pub(crate) fn made(node: PlanNode, left: u32) -> Left<Plan>
    ensures { result ≡ spec.made node left }
{
    Left {
        left,
        value: Plan { node },
    }
}

/// Strategies and one more behind them.
pub(crate) fn behind(before: Items<Plan>, one: Left<Plan>) -> Result<Left<Items<Plan>>, Halt>
    ensures ok { IfOk result (λ all. all ≡ spec.behind before one) }
    ensures err { IfErr result (λ halt. is_misfit halt ≡ false) }
{
    let Left { left, value } = one;
    match pushed(before, value) {
        Ok(value) => Ok(Left { left, value }),
        Err(halt) => Err(halt),
    }
}

/// A strategy in a box.
pub(crate) fn boxed(alloc: Global, plan: Plan) -> Result<Boxed<Plan>, Halt>
    ensures ok { IfOk result (λ inner. inner ≡ plan) }
    ensures err { IfErr result (λ halt. is_misfit halt ≡ false) }
{
    match Boxed::new(alloc, plan) {
        Ok(inner) => Ok(inner),
        Err(_) => Err(Halt::NoMemory),
    }
}
