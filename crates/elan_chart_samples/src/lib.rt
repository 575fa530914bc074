//! Tests of the chart: the readings of small texts, worked out by hand.
#![tactic(auto)]

#[cfg(test)]
mod shown;
#[cfg(test)]
mod signatures;
#[cfg(test)]
mod texts;
