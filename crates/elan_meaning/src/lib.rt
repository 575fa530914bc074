//! What a program means: the items of normalising, of rules and of strategies, row by row, and the
//! laws of steps.
#![tactic(auto)]

mod item;
pub mod laws;

pub use item::{Cause, Entry, Item};
