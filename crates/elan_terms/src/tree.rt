//! The trees. Contracts see `Items` as a list, so a term is plain data.

use sqlite_items::Items;

/// An operator, by its number in `Shapes`.
#[derive(Clone, Copy, Debug, PartialEq, Eq)]
pub struct OpId(pub u32);

/// A sort, by its number.
#[derive(Clone, Copy, Debug, PartialEq, Eq)]
pub struct SortId(pub u32);

/// An integer, or an operator applied to arguments.
#[cycle(term)]
#[derive(Debug, Drop)]
pub struct Term {
    pub node: TermNode,
}

/// The two kinds of term.
#[cycle(term)]
#[derive(Debug, Drop)]
pub enum TermNode {
    Int(i64),
    App(OpId, Items<Term>),
}

/// A term with variables.
#[cycle(pattern)]
#[derive(Debug, Drop)]
pub struct Pattern {
    pub node: PatternNode,
}

/// The three kinds of pattern.
#[cycle(pattern)]
#[derive(Debug, Drop)]
pub enum PatternNode {
    /// A variable, by its number, with its sort.
    Var(u32, SortId),
    Int(i64),
    App(OpId, Items<Pattern>),
}

/// What is known of one operator.
#[derive(Debug, Drop)]
pub struct Shape {
    /// The sorts of its arguments, from left to right.
    pub args: Items<SortId>,
    /// The sort of what it makes.
    pub sort: SortId,
    /// Whether the operator is associative and commutative.
    pub ac: bool,
}

/// The operators in the order of their numbers, and the sort of integers, if there is one.
#[derive(Debug, Drop)]
pub struct Shapes {
    pub shapes: Items<Shape>,
    pub int: Option<SortId>,
}
