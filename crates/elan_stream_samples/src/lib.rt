//! Tests of the crates that read a stream: calls with ample memory, and what no clause says.
#![tactic(auto)]

#[cfg(test)]
mod bytes;
#[cfg(test)]
mod flattening;
#[cfg(test)]
mod loaders;
#[cfg(test)]
mod phrases;
#[cfg(test)]
mod tokens;
