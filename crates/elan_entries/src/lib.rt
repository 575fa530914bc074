//! What a chart keeps of a run: trees whose copies share their parts, at most one list of them at each key; and the
//! tokens and pieces of spellings to which the keys point.
#![tactic(auto)]

pub mod found;
pub mod lexemes;
pub mod pieces;
pub mod shared;
