//! A program flattened to the list of its module instances, with texts from loaders.
#![tactic(auto)]

mod begin;
mod entry;
mod find;
mod flat;
pub mod laws;
mod load;
mod modules;
mod opening;
mod progress;
mod replacing;
mod sorts;
mod visit;
mod walk;

pub use entry::flatten;
pub use flat::{Flat, FlattenRefusal, Instance, LoadedText, Origin, Standard};
pub use modules::{copy_owner, parameters_of};
pub use replacing::Replacements;
pub use sorts::{argument_spans, part, place_at, word, word_at, written_by};
