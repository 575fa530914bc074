//! Tests of the signature of a flat program, of numbers of names and of edges on cycles.
#![tactic(auto)]

#[cfg(test)]
mod cycles;
#[cfg(test)]
mod numbers;
#[cfg(test)]
mod signatures;
