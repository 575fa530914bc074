//! Tests of matching modulo associativity and commutativity over a table.
#![tactic(auto)]

#[cfg(test)]
mod bags;
#[cfg(test)]
mod look;
#[cfg(test)]
mod shares;
#[cfg(test)]
mod walks;
