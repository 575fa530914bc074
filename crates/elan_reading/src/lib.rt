//! What a reading of a text is: tokens and variables, the rule on arguments at the edges of a spelling, and the answers
//! that the readings of a text allow.
#![tactic(auto)]

mod edge;
pub mod laws;
mod lexeme;
mod sought;

pub use edge::{Position, Side, counted, fits, is_injection, side_of, tie};
pub use lexeme::{Lexeme, Variable};
pub use sought::{ReadingRefusal, Sought};
