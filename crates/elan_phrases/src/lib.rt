//! Phrases of a text: sort expressions, references, strategies and runs of tokens, with the reader that takes them.
#![tactic(auto)]

mod halt;
pub mod laws;
mod left;
mod plan;
mod reader;
mod referring;
mod seeing;
mod sort_expressions;
mod span;
mod strategies;
mod symbol;
mod symbol_set;
mod texts;
mod worth;

pub use halt::{Halt, pushed};
pub use plan::{Plan, PlanNode, Planned};
pub use reader::Reader;
pub use referring::references;
pub use seeing::lexemes;
pub use sort_expressions::{closing_arguments, more_sorts, sort_span};
pub use span::Span;
pub use strategies::{some_strategy, strategy_plan};
pub use symbol::{Importer, Lexeme, Symbol, is_unreserved};
pub use symbol_set::SymbolSet;
pub use texts::text;
