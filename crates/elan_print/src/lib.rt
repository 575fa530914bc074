//! Terms, reports and refusals as text.
#![tactic(auto)]

pub mod laws;
mod numbers;
mod page;
mod refusals;
mod reports;
mod spelling;
mod terms;

pub use refusals::refusal_line;
pub use reports::report;
pub use terms::term_text;
