//! Tests of whole runs whose sources, sinks, loaders or words are out of the common. Programs with what they write are cases of
//! `elan_cases`.
#![tactic(auto)]

#[cfg(test)]
mod faults;
#[cfg(test)]
mod hostile;
#[cfg(test)]
mod places;
#[cfg(test)]
mod programs;
#[cfg(test)]
mod rows;
#[cfg(test)]
mod words;
