//! Tests of `elan_print`: printed terms, reports and refusals at worked values.
#![tactic(auto)]

#[cfg(test)]
mod lines;
#[cfg(test)]
mod sample;
#[cfg(test)]
mod terms;
