//! Where and why a text is refused.

ghost use Rattle.std.specs.Prelude.{◌≡◌};
ghost use Rattle.elan_text.specs.declared.refusal.Stop.TheVariants.{NoMemory as OutOfMemory, Refused};

use crate::Name;
use std::alloc::{AllocError, AllocFailed};

/// A place in a text: a line and a column, both counted from 1. A column counts bytes.
#[derive(Clone, Copy, Debug, PartialEq, Eq)]
pub struct Place {
    pub line: u32,
    pub column: u32,
}

/// Why a text is refused. docs/LANGUAGE.md has the words of each code.
#[derive(Clone, Copy, Debug, PartialEq, Eq)]
pub enum Code {
    /// The input is too long.
    E01,
    /// A byte that no token and no white space has.
    E02,
    /// A comment is not closed.
    E03,
    /// A number is past 9,223,372,036,854,775,807.
    E04,
    /// A token after whose predecessors no text of the language goes on with it, or the text ends too early.
    E05,
    /// A module that nobody has.
    E06,
    /// A module with another number of arguments than it has parameters.
    E07,
    /// A module that imports itself by way of others.
    E08,
    /// A name that two modules have.
    E09,
    /// A sort that is not declared.
    E10,
    /// An operator with another number of holes than argument sorts.
    E11,
    /// An associative and commutative operator whose two argument sorts are not its own sort.
    E12,
    /// Operators without a spelling that lead a sort back to itself.
    E13,
    /// More of something than a limit allows.
    E14,
    /// A text that is no term of the sort that is wanted.
    E15,
    /// A text that can be read as two different terms.
    E16,
    /// A text of more than 256 tokens.
    E17,
    /// A variable that nothing has bound.
    E18,
    /// A variable that is bound a second time.
    E19,
    /// A name that no strategy and no rule has.
    E20,
    /// A name that is declared twice.
    E21,
    /// A strategy for another sort than the one wanted.
    E22,
}

/// One refusal: the code, its place, and the loaded module in whose text that place lies, if it is not the stream's.
#[derive(Debug, Drop)]
pub struct Refusal {
    pub code: Code,
    pub at: Place,
    pub module: Option<Name>,
}

/// What stops work on a text: the text, or the machine.
#[derive(Debug, Drop)]
pub enum Stop {
    Refused(Refusal),
    NoMemory,
}

impl From<Refusal> for Stop {
    ghost from_gives = { λ refusal e. e ≡ Refused refusal };

    fn from(refusal: Refusal) -> Stop {
        Stop::Refused(refusal)
    }
}

impl From<AllocError> for Stop {
    ghost from_gives = { λ _ e. e ≡ OutOfMemory };

    fn from(_: AllocError) -> Stop {
        Stop::NoMemory
    }
}

impl<T: Drop> From<AllocFailed<T>> for Stop {
    ghost from_gives = { λ _ e. e ≡ OutOfMemory };

    fn from(_: AllocFailed<T>) -> Stop {
        Stop::NoMemory
    }
}
