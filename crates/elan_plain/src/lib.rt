//! The plain engine: the whole list of answers, by recursion over owned terms.
#![tactic(auto)]

mod answering;
mod builtin;
mod closures;
mod conditions;
mod level;
mod lists;
mod matching;
mod normalising;
mod positions;
mod strategies;
mod world;

pub use answering::{plain_item, plain_items, plain_list, plain_matches};
pub(crate) use closures::{Actuals, Closure};
pub(crate) use level::Level;
pub(crate) use world::{Ask, Turn, World};
