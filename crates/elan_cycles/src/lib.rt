//! The first edge of a directed graph that lies on a cycle.
#![tactic(auto)]

mod components;
mod edge;
mod first;
mod graph;
pub mod laws;
mod links;
mod marks;
mod ranks;
mod reach;

pub use edge::Edge;
pub use first::first_on_cycle;
