//! Tests of `elan_cli`: lines of words and what they ask for.
#![tactic(auto)]

#[cfg(test)]
mod lines;
