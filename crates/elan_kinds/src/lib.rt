//! Results of a valid program keep their kind: they are valid, canonical, of the sort of the term,
//! and at most 2,000 deep.
#![tactic(auto)]

pub mod laws;
