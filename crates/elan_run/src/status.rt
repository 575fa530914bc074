//! How a run ended.

ghost use Rattle.std.specs.Prelude.{◌≡◌};
ghost use Rattle.elan_run.specs.Exit.{exit_of};

use elan_text::Code;

/// How a run ended.
#[derive(Clone, Copy, Debug, PartialEq, Eq)]
pub enum Status {
    /// The whole report was written.
    Done,
    /// The words were refused, and the usage line was written.
    Usage,
    /// The source failed; nothing was written.
    ReadFault,
    /// The sink failed; a front of the text was written that is not all of it.
    WriteFault,
    /// The input was refused with this code, and the line that says so was written.
    Refused(Code),
    /// A loader failed; nothing was written.
    LoaderFault,
    /// The machine had no memory to give; nothing was written.
    NoMemory,
}

impl Status {
    /// The number with which the program ends.
    pub fn exit(self) -> u8
        ensures { result ≡ exit_of self }
    {
        match self {
            Status::Done => 0,
            Status::Usage => 2,
            Status::ReadFault => 3,
            Status::WriteFault => 4,
            Status::Refused(_) => 5,
            Status::LoaderFault => 6,
            Status::NoMemory => 7,
        }
    }
}
