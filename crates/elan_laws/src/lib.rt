//! What holds of every term: its order, canonical form, parts, matches and equality; and a test of equality.
#![tactic(auto)]

pub mod laws;
mod modulo;

pub use modulo::equal_modulo;
