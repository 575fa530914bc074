//! The check of programs: a valid program with what is asked of it, or the first refusal.
#![tactic(auto)]

mod asking;
mod entry;
mod laying;
mod naming;
mod parts;
mod prepared;
mod small;
mod sorts;
mod steps;
mod variables;

pub use entry::check;
pub use prepared::Prepared;
pub use small::is_small;
