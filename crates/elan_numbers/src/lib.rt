//! Names with numbers: a list of names in which a name is found without going through the list.
#![tactic(auto)]

mod numbers;

pub use numbers::Numbers;
