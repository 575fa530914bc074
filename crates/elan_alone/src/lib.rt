//! The engine of one thread: a search tree is finished on the caller's thread.
#![tactic(auto)]

mod alone;

pub use alone::finish;
