//! Tests of the crates of terms and programs: calls with ample memory, and what no clause says.
#![tactic(auto)]

#[cfg(test)]
mod demo;
#[cfg(test)]
mod equality;
#[cfg(test)]
mod fits;
#[cfg(test)]
mod operations;
#[cfg(test)]
mod programs;
#[cfg(test)]
mod readings;
#[cfg(test)]
mod spelled;
#[cfg(test)]
mod terms;
