//! The words of the command line, read as options.
#![tactic(auto)]

mod command;
mod fault;
mod given;
pub mod laws;
mod line;
mod mistake;
mod number;
mod setting;
mod word;

pub use fault::WordsRefusal;
pub use given::Options;
pub use line::options;
