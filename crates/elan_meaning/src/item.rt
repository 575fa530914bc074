//! What the lists of a meaning hold.

use elan_terms::Term;
use sqlite_items::Items;

/// Why a path ends in a mark.
#[derive(Clone, Copy, Debug, PartialEq, Eq)]
pub enum Cause {
    /// A step was needed, and none was left.
    Steps,
    /// A term would have been deeper than 2,000.
    Depth,
}

/// A result with the number of steps left, or a mark.
#[derive(Debug, Drop)]
pub enum Item {
    Res(Term, u32),
    Mark(Cause),
}

/// Terms in a row with the number of steps left, or a mark.
#[derive(Debug, Drop)]
pub enum Entry {
    At(Items<Term>, u32),
    Stop(Cause),
}
