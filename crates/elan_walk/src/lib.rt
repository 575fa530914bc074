//! The matches of a pattern modulo associativity and commutativity, one by one.
#![tactic(auto)]

mod all;
mod walk;

pub use all::matches;
pub use walk::AcWalk;

/// Memory ran out, as std says it.
pub type NoMemory = std::alloc::AllocError;
