//! The outline of a text: its modules, sections and rules, as numbers of its tokens.
#![tactic(auto)]

mod attributes;
mod clauses;
mod definitions;
mod entry;
mod imports;
pub mod laws;
mod lpl;
mod modules;
mod operators;
mod parameters;
mod parts;
mod rules;
mod sorts;
mod variables;

pub use elan_phrases::Span;
pub use entry::{module_outline, outline};
pub use parts::{
    Attributes, ClauseOutline, Definition, LplOutline, ModuleOutline, OpDecl, Outline, RuleOutline,
    Section, Side, Vars,
};
