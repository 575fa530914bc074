//! Variables that are declared: a list of variables in which those of a word are found without going through the list.
#![tactic(auto)]

mod places;
mod variables;

pub use variables::Variables;
