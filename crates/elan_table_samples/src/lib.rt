//! Tests of the crates of shared terms: calls with ample memory, what is found again, and two threads.
#![tactic(auto)]

#[cfg(test)]
mod fronts;
#[cfg(test)]
mod matches;
#[cfg(test)]
mod shared;
#[cfg(test)]
mod tables;
#[cfg(test)]
mod unions;
