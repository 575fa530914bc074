//! What the names in strategies stand for: definitions, labels, parameters and operators.
#![tactic(auto)]

mod fault;
mod groups;
mod heads;
mod index;
mod keyed;
mod keys;
mod names;
mod prefixes;
mod resolving;
mod site;

pub use fault::{Fault, Stopped};
pub use groups::{Groups, Key};
pub use heads::{Head, Label, Names, Target};
pub use index::Index;
pub use keyed::{Keys, grouped};
pub use keys::name_key;
pub use names::is_taken;
pub use resolving::resolve;
pub use site::{Body, Known, Site};
