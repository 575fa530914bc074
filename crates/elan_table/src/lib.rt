//! Terms in numbered rows that threads share: rows of equal numbers mean equal terms.
#![tactic(auto)]

mod application;
mod condition;
mod copies;
mod name;
mod node;
mod order;
mod row;
mod rows;
mod shard;
mod spot;
mod table;

pub use name::Name;
pub use node::Node;
pub use row::{TermRef, Top};
pub use rows::{Blank, Rows};
pub use shard::Shard;
pub use table::Table;

/// Memory ran out, as std says it.
pub type NoMemory = std::alloc::AllocError;
