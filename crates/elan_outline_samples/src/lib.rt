//! Tests of the outlines of loaded texts. Outlines of whole streams are cases of `elan_cases`.
#![tactic(auto)]

#[cfg(test)]
mod outlines;
