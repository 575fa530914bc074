//! The parts of a text, as numbers of its tokens.

use elan_phrases::{Planned, Span};
use sqlite_items::Items;

/// A whole text: its modules, the `LPL` text and the query.
#[derive(Debug, Drop)]
pub struct Outline {
    pub modules: Items<ModuleOutline>,
    pub lpl: LplOutline,
    pub query: Span,
}

/// A module, with its parts in the order of the text.
#[derive(Debug, Drop)]
pub struct ModuleOutline {
    /// The token that is the module's name.
    pub name: u32,
    /// The tokens that are the names of its parameters.
    pub parameters: Items<u32>,
    pub sections: Items<Section>,
}

/// A section of a module, with its parts in the order of the text.
#[derive(Debug, Drop)]
pub enum Section {
    /// References to other modules.
    Imports(Items<Span>),
    /// Sort expressions.
    Sorts(Items<Span>),
    Operators(Items<OpDecl>),
    /// The variables and the rules for a sort.
    Rules {
        sort: Span,
        vars: Items<Vars>,
        rules: Items<RuleOutline>,
    },
    /// The named strategies for a sort.
    Strategies {
        sort: Span,
        definitions: Items<Definition>,
    },
}

/// A declaration of an operator.
#[derive(Debug, Drop)]
pub struct OpDecl {
    /// What stands before the `:`.
    pub spelling: Span,
    /// The sorts of the arguments.
    pub args: Items<Span>,
    /// The sort of the operator.
    pub sort: Span,
    /// What stands between the sort and the `;`.
    pub attributes: Attributes,
}

/// What a declaration of an operator says behind the sort, where each of the three stands at most once.
#[derive(Clone, Copy, Debug, PartialEq, Eq)]
pub struct Attributes {
    /// The number behind `pri`.
    pub priority: Option<u8>,
    /// The side of `assocLeft` or `assocRight`.
    pub associativity: Option<Side>,
    /// Whether `(AC)` stands there: the operator is associative and commutative.
    pub ac: bool,
}

/// To which side an operator associates.
#[derive(Clone, Copy, Debug, PartialEq, Eq)]
pub enum Side {
    /// `assocLeft`.
    Left,
    /// `assocRight`.
    Right,
}

/// A declaration of variables of one sort.
#[derive(Debug, Drop)]
pub struct Vars {
    /// The tokens that are their names, at least one.
    pub names: Items<u32>,
    pub sort: Span,
}

/// A rule.
#[derive(Debug, Drop)]
pub struct RuleOutline {
    /// The token `[` with which it begins.
    pub at: u32,
    /// The token that is its label.
    pub label: Option<u32>,
    pub left: Span,
    pub right: Span,
    pub clauses: Items<ClauseOutline>,
}

/// A clause of a rule.
#[derive(Debug, Drop)]
pub enum ClauseOutline {
    /// The pattern, the strategy without its parentheses, and the term to which it is applied.
    Where {
        left: Span,
        by: Option<Planned>,
        of: Span,
    },
    If(Span),
}

/// A definition of a strategy.
#[derive(Debug, Drop)]
pub struct Definition {
    /// The token `[` with which it begins.
    pub at: u32,
    /// The token that is its name.
    pub name: u32,
    /// The tokens that are its parameters, two of which may be equal words.
    pub parameters: Items<u32>,
    /// The strategy that it names.
    pub by: Planned,
}

/// The `LPL` text, which says what may be asked.
#[derive(Debug, Drop)]
pub struct LplOutline {
    pub query_sort: Span,
    pub result_sort: Span,
    /// References to modules, at least one.
    pub imports: Items<Span>,
    /// The strategy without its parentheses, where it is not empty.
    pub start: Option<Planned>,
}
