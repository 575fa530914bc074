//! Which readings are looked for, and why there is not one.

ghost use Rattle.std.specs.Prelude.{◌≡◌};
ghost use Rattle.elan_reading.specs.declared.sought.ReadingRefusal.TheVariants.{NoMemory as OutOfMemory};

use elan_terms::SortId;
use elan_text::NoMemory;

/// Which readings of a text count.
#[derive(Clone, Copy, Debug, PartialEq, Eq)]
pub enum Sought {
    /// Those at this sort.
    Sort(SortId),
    /// Those at every sort whose outermost node is no injection.
    Any,
}

/// Why a text has not one reading.
#[derive(Clone, Copy, Debug, Drop, PartialEq, Eq)]
pub enum ReadingRefusal {
    /// It has none.
    None,
    /// It has two that differ.
    Several,
    /// It has more than 256 tokens.
    TooLong,
    /// The machine had no memory to give.
    NoMemory,
}

impl From<NoMemory> for ReadingRefusal {
    ghost from_gives = { λ _ e. e ≡ OutOfMemory };

    fn from(_: NoMemory) -> ReadingRefusal {
        ReadingRefusal::NoMemory
    }
}
