//! Programs with what is asked of them.

use elan_program::{Program, Strategy};
use elan_terms::{Pattern, SortId};

/// What the `LPL` text and the query ask.
#[derive(Drop)]
pub(crate) struct Asked {
    pub(crate) start: Strategy,
    pub(crate) query: Pattern,
    pub(crate) sort: SortId,
}

/// A checked program with what is asked of it.
#[derive(Drop)]
pub struct Prepared {
    pub program: Program,
    /// The strategy with which a run starts, at the sort of the query.
    pub start: Strategy,
    /// The term that it starts from, which has no variables.
    pub query: Pattern,
    /// The sort of the query.
    pub sort: SortId,
}
