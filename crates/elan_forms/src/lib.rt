//! Forms: parts of a grammar that say which tokens they spell, and how those are read once from the left.
#![tactic(auto)]

mod why;

pub use why::Why;
