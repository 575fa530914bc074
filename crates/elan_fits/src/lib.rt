//! Matches of patterns in terms, one at a time.
#![tactic(auto)]

mod direct;
mod look;
mod plain;
mod sorts;
mod strike;
mod task;
mod walk;

pub use direct::match_plain;
pub use plain::is_plain;
pub use walk::{Walk, matches};

/// Memory ran out, as std says it.
pub type NoMemory = std::alloc::AllocError;
