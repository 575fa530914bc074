//! Strategies as they are written, by the numbers of their tokens.

use crate::span::Span;
use sqlite_items::{Boxed, Items};

/// A strategy as it is written. Parentheses that only group are left out.
#[cycle(plan)]
#[derive(Debug, Drop)]
pub struct Plan {
    pub node: PlanNode,
}

/// The kinds of strategy, with names as the numbers of their tokens.
#[cycle(plan)]
#[derive(Debug, Drop)]
pub enum PlanNode {
    Id,
    Fail,
    /// A name.
    Name(u32),
    /// A name over strategies in parentheses.
    Applied(u32, Items<Plan>),
    /// Two steps or more.
    Seq(Items<Plan>),
    /// `dk`
    All(Items<Plan>),
    /// `dc` or `first`, with `one` or without it.
    First { one: bool, arms: Items<Plan> },
    /// `repeat*`
    Repeat(Boxed<Plan>),
    /// `iterate*`
    Iterate(Boxed<Plan>),
    /// `iterate+`
    IteratePlus(Boxed<Plan>),
    Normalise(Boxed<Plan>),
}

/// A strategy of a text: the tokens from its first one on, and its tree.
#[derive(Debug, Drop)]
pub struct Planned {
    pub at: Span,
    pub plan: Plan,
}
