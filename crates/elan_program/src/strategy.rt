//! Strategies. Contracts see `Items` as a list and `Boxed` as its value, so a strategy is plain
//! data.

use elan_terms::{OpId, SortId};
use sqlite_items::{Boxed, Items};

/// How a term is rewritten.
#[cycle(strategy)]
#[derive(Debug, Drop)]
pub struct Strategy {
    pub node: StrategyNode,
}

/// The kinds of strategy.
#[cycle(strategy)]
#[derive(Debug, Drop)]
pub enum StrategyNode {
    /// The term as it is.
    Id,
    /// Nothing.
    Fail,
    /// The rules of these numbers, in order.
    Label(Items<u32>),
    /// The named strategy of this number, with an actual for each of its parameters.
    Call(u32, Items<Strategy>),
    /// In the body of a named strategy: the actual of this number, counted from 0.
    Param(u32),
    /// One after the other.
    Seq(Items<Strategy>),
    /// All results of each arm, in order.
    All(Items<Strategy>),
    /// The results of the first arm that gives any; with `one` only the first of them.
    First { one: bool, arms: Items<Strategy> },
    /// As long as there is a result, with the last results alone.
    Repeat(Boxed<Strategy>),
    /// As long as there is a result, with each term on the way.
    Iterate(Boxed<Strategy>),
    /// The same without the term that it starts from.
    IteratePlus(Boxed<Strategy>),
    /// At each place of this sort, from the inside out, as long as there is a result.
    Normalise(SortId, Boxed<Strategy>),
    /// On a term that this operator heads: each strategy on the argument of its place.
    Cong(OpId, Items<Strategy>),
}

/// Where a strategy stands, which decides what its parameters may be.
#[derive(Clone, Copy, Debug, PartialEq, Eq)]
pub enum Scope {
    /// In no body: there are no parameters.
    Outside,
    /// In the body of a named strategy with so many parameters, for strategies of this sort.
    Inside(u32, SortId),
}
