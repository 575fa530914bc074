//! Why words are refused.

ghost use Rattle.std.specs.Prelude.{◌≡◌};
ghost use Rattle.elan_cli.specs.declared.fault.WordsRefusal.TheVariants.{NoMemory as OutOfMemory};

use std::alloc::AllocError;
use thiserror::Error;

/// Why words are refused, with the number of the word, counted from 0.
#[derive(Clone, Copy, Debug, PartialEq, Eq, Error)]
pub enum WordsRefusal {
    /// The word is no option and no value of one.
    #[error("word {0} is unknown")]
    Unknown(u64),
    /// The word names an option or the flag a second time.
    #[error("word {0} is repeated")]
    Repeated(u64),
    /// The word is an option that has no value.
    #[error("word {0} has no value")]
    NoValue(u64),
    /// The word holds a value that is no number in the range of its option.
    #[error("word {0} is out of range")]
    OutOfRange(u64),
    /// The machine had no memory to give.
    #[error("out of memory")]
    NoMemory,
}

impl From<AllocError> for WordsRefusal {
    ghost from_gives = { λ _ e. e ≡ OutOfMemory };

    fn from(_: AllocError) -> WordsRefusal {
        WordsRefusal::NoMemory
    }
}
