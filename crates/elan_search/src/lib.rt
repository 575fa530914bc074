//! The first list of terms, and the next, where only a look-ahead tells which lists there are.
#![tactic(auto)]

mod ahead;
mod place;
mod search;

pub use ahead::{Ahead, Low};
pub use search::{after, first};
