//! Why no piece begins at a place.

ghost use Rattle.std.specs.Prelude.{◌≡◌};
ghost use Rattle.elan_lexer.specs.Pieces.{code_of};

use elan_text::Code;

/// Why no piece begins at a place.
#[derive(Clone, Copy, Debug, PartialEq, Eq)]
pub enum Fault {
    /// A byte that neither white space nor a token has.
    BadByte,
    /// A comment without its end.
    Unclosed,
    /// A number past its range.
    TooLarge,
}

/// The code that a fault is refused with.
pub fn code(fault: Fault) -> Code
    ensures { result ≡ code_of fault }
{
    match fault {
        Fault::BadByte => Code::E02,
        Fault::Unclosed => Code::E03,
        Fault::TooLarge => Code::E04,
    }
}
