//! Tests of the search tree and of the engine of one thread: items in order, cuts, paths and what stays.
#![tactic(auto)]

#[cfg(test)]
mod finished;
#[cfg(test)]
mod trees;
