//! The generated input, whose list grows with the square of a number, and the summary of a report.
#![tactic(auto)]

mod counts;
mod input;
mod size;

pub use counts::{summary, summary_text};
pub use input::demo_input;
pub use size::Summary;
