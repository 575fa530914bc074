//! Terms and patterns over numbered operators: validity, order, canonical form, parts and matches.
#![tactic(auto)]

mod assignment;
mod canonical;
mod copies;
mod matching;
mod measure;
mod occurrence;
mod order;
mod pieces;
mod settled;
mod sorts;
mod tree;
mod valid;

pub use assignment::instance;
pub use canonical::{canon, is_ac, node};
pub use copies::{copy, copy_onto, copy_pattern};
pub use matching::matches;
pub use measure::{depth, is_deeper};
pub use occurrence::variables;
pub use order::compare;
pub use pieces::parts;
pub use settled::{is_ascending, is_canonical};
pub use sorts::{is_of_sort, sort_of};
pub use tree::{OpId, Pattern, PatternNode, Shape, Shapes, SortId, Term, TermNode};
pub use valid::is_valid;

/// Memory ran out, as std says it.
pub type NoMemory = std::alloc::AllocError;
