//! What reads texts.

ghost use Rattle.std.specs.Prelude.{◌≡◌, true, map};
ghost use Rattle.std.specs.List.{All};
ghost use Rattle.elan_lexer.specs.Text.{IsInside};
ghost use Rattle.elan_program.specs.Soundness.{is_sound};
ghost use Rattle.elan_reading.specs.Lexemes.{lexeme_of, IsInRange};
ghost use Rattle.elan_clauses.specs.Texts.{Reader};
ghost use Rattle.elan_clauses.specs.Gives.{Tells};

use elan_lexer::Token;
use elan_program::Signature;
use elan_reading::Sought;
use elan_terms::Pattern;
use elan_text::Code;
use elan_variables::Variables;
use std::alloc::Global;

/// Why a text is not read.
#[derive(Clone, Copy, Debug)]
pub enum Unread {
    Refused(Code),
    NoMemory,
}

/// What reads texts.
pub trait Read {
    /// How it reads them.
    ghost reads: { Self → Reader };

    /// The one reading of a text, or E17, E15 or E16. The tokens lie inside the bytes.
    fn read(
        &self,
        alloc: Global,
        signature: &Signature,
        variables: &Variables,
        sought: Sought,
        bytes: &[u8],
        tokens: &[Token],
    ) -> Result<Pattern, Unread>
        requires sound { is_sound signature.now ≡ true }
        requires inside { All (IsInside bytes.now) tokens.now }
        requires in_range { All IsInRange (map (lexeme_of bytes.now) tokens.now) }
        ensures { Tells result ((reads self.now).reading
            signature.now variables.now sought bytes.now tokens.now) };
}
