//! What a walk through the imports handles: references, where modules are, and what is begun.

use crate::flat::Origin;
use elan_text::{Name, Place};
use sqlite_items::Items;

/// A reference to a module with its sort arguments.
#[derive(Debug, Drop)]
pub struct Reference {
    pub name: Name,
    /// Sorts in their whole written form.
    pub args: Items<Name>,
    /// The place of its first token.
    pub at: Place,
    /// The loaded module in whose text it stands, if it is not the stream's.
    pub module: Option<Name>,
}

/// Where a module is: the number of its text, and of the module in it.
#[derive(Clone, Copy, Debug)]
pub struct Spot {
    pub text: usize,
    pub module: usize,
}

/// An instance that is begun: where its module is, and what that imports.
#[derive(Debug, Drop)]
pub struct Opening {
    pub origin: Origin,
    pub imports: Items<Reference>,
}
