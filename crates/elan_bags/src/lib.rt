//! Lists of rows that ascend in the term order, as multisets.
#![tactic(auto)]

mod bag;
mod choice;
mod copies;
mod cut;
mod laws;

pub use bag::{except, is_among, minus, over};
pub use choice::{above, first_of};
pub use copies::{times, with_row, without};
pub use laws::{bags_are_shared, choices_come_in_order, values_are_shares};

/// Memory ran out, as std says it.
pub type NoMemory = std::alloc::AllocError;
