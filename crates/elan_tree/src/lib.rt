//! An ordered search tree: in whatever order its open places are grown, it gives the items of its root in order.
#![tactic(auto)]

mod advance;
pub mod branch;
mod kids;
pub mod laws;
mod lookup;
pub mod name;
mod node;
pub mod path;
mod place;
mod plant;
pub mod posts;
mod release;
mod replace;
mod settle;
mod shared;
mod tally;
pub mod tree;
