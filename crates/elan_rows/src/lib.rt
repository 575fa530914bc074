//! Tests that cross crates: the answers of small programs, worked out by hand.
#![tactic(auto)]

#[cfg(test)]
mod answers;
#[cfg(test)]
mod calls;
#[cfg(test)]
mod described;
#[cfg(test)]
mod programs;
