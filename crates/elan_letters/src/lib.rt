//! Terms of a table and patterns in letters, for tests and for programs that are measured.
#![tactic(auto)]

mod letters;

pub use letters::{are_numbered, blank, pattern, row, spell_onto, values_onto};
