//! Tests of the pool: who takes what, and what is left.
#![tactic(auto)]

#[cfg(test)]
mod shares;
