//! The tokens of a text: words, numbers and signs, each with its place.
#![tactic(auto)]

mod bytes;
mod cut;
mod fault;
pub mod laws;
mod places;
mod token;
mod whole;

pub use places::end_place;
pub use token::{Kind, Token, text};
pub use whole::tokens;
