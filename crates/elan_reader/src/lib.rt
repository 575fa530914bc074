//! The reader of texts: the chart's one reading, as what checks a program asks it.
#![tactic(auto)]

mod chart_reader;
pub mod laws;

pub use chart_reader::ChartReader;
