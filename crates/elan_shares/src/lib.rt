//! What a variable may take of the arguments of a node of an associative and commutative operator.
#![tactic(auto)]

mod choice;
mod node;
mod share;
mod single;
mod size;

pub use share::{Places, least_share};

/// Memory ran out, as std says it.
pub type NoMemory = std::alloc::AllocError;
