//! Workers search the tree of a root at one board, and the caller does what is left.
#![tactic(auto)]

mod crew;
mod engine;
pub mod gate;
mod rest;
mod turn;

pub use engine::search;
