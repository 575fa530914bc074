//! What a program's terms are made of: sorts, operators with their spelling, and built-in operations.

use elan_terms::{OpId, SortId};
use elan_text::Name;
use sqlite_items::Items;

/// The built-in operations of truth values, of integers, and of any sort.
#[derive(Clone, Copy, Debug, PartialEq, Eq)]
pub enum Builtin {
    /// The constant `true`.
    Yes,
    /// The constant `false`.
    No,
    And,
    Or,
    Not,
    Add,
    Sub,
    Mul,
    /// The quotient, rounded towards 0.
    Div,
    /// What the quotient leaves.
    Mod,
    Less,
    LessOrSame,
    Greater,
    GreaterOrSame,
    /// Equality of integers.
    IntSame,
    IntDiffer,
    /// Equality of canonical terms of any sort.
    Same,
    Differ,
}

/// A part of an operator's spelling.
#[derive(Debug, Drop)]
pub enum Piece {
    /// The place of an argument.
    Hole,
    Word(Name),
}

/// On which side an operator may stand in its own argument without parentheses.
#[derive(Clone, Copy, Debug, PartialEq, Eq)]
pub enum Assoc {
    No,
    Left,
    Right,
}

/// An operator of a signature.
#[derive(Debug, Drop)]
pub struct Operator {
    /// Its spelling, with a hole for each argument.
    pub pieces: Items<Piece>,
    /// The sorts of its arguments, from left to right.
    pub args: Items<SortId>,
    /// The sort of what it makes.
    pub sort: SortId,
    /// Its priority; the greater binds the tighter.
    pub pri: u8,
    pub assoc: Assoc,
    /// Whether it is associative and commutative.
    pub ac: bool,
    pub builtin: Option<Builtin>,
}

/// The sort of truth values and its two constants.
#[derive(Clone, Copy, Debug, PartialEq, Eq)]
pub struct Truth {
    pub sort: SortId,
    pub yes: OpId,
    pub no: OpId,
}

/// Sorts and operators, each known by its place in its list.
#[derive(Debug, Drop)]
pub struct Signature {
    /// The written form of each sort.
    pub sorts: Items<Name>,
    pub operators: Items<Operator>,
    /// The sort of integers, if there is one.
    pub int: Option<SortId>,
    pub truth: Option<Truth>,
}
