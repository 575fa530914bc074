//! What one worker remembers of a term table: rows by their nodes, without a lock.
#![tactic(auto)]

mod front;
mod node;
mod place;

pub use front::{Front, PLACES};
