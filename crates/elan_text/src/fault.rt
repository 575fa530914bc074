//! Why bytes were not read or not written.

ghost use Rattle.std.specs.Prelude.{◌≡◌};
ghost use Rattle.elan_text.specs.declared.fault.ReadRefusal.TheVariants.{NoMemory as OutOfMemory};

use std::alloc::AllocError;
use thiserror::Error;

/// Why not all bytes of a source were read.
#[derive(Clone, Copy, Debug, PartialEq, Eq, Error)]
pub enum ReadRefusal {
    /// The source had more bytes than were allowed.
    #[error("input too long")]
    TooLong,
    /// The source failed.
    #[error("the input could not be read")]
    ReadFault,
    /// The machine had no memory to give.
    #[error("out of memory")]
    NoMemory,
}

impl From<AllocError> for ReadRefusal {
    ghost from_gives = { λ _ e. e ≡ OutOfMemory };

    fn from(_: AllocError) -> ReadRefusal {
        ReadRefusal::NoMemory
    }
}

/// The sink failed before all bytes were written.
#[derive(Clone, Copy, Debug, PartialEq, Eq, Error)]
#[error("the output could not be written")]
pub struct WriteFault;
