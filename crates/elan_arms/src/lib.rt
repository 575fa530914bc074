//! What a pattern is under values of its variables: laws on its canonical form.
#![tactic(auto)]

pub mod node;
pub mod values;
