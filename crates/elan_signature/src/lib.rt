//! The signature of a flat program: its sorts and its operators.
#![tactic(auto)]

mod attributes;
mod built_in;
mod cycle;
mod declare;
mod done;
mod entry;
pub mod laws;
mod outcome;
mod scope;
mod sorts;
mod walk;

pub use entry::signature;
