//! Terms whose copies share their subterms, so that a node is made from its arguments without copying them.
#![tactic(auto)]

mod copies;
mod order;
mod tree;

pub use copies::{shared, to_owned};
pub use order::{compare, is_equal};
pub use tree::{Node, SharedTerm};
