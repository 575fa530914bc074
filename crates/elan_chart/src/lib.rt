//! The one reading of a text over a signature of mixfix operators.
#![tactic(auto)]

mod answer;
mod chart;
pub mod laws;
mod offers;
mod operators;

pub use answer::read;
