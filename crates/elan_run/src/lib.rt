//! The top call: from the words and the bytes of a run to its report.
#![tactic(auto)]

mod answer;
pub mod laws;
mod lines;
mod program;
mod run;
mod status;

pub use run::run_plain;
pub use status::Status;
