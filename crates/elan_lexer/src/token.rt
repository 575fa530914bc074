//! Tokens and their bytes.

ghost use Rattle.std.specs.Prelude.{◌≡◌, ◌≤◌, length};
ghost use Rattle.elan_lexer.specs.Text.{token_text};

use elan_text::Place;

/// What a token is.
#[derive(Clone, Copy, Debug, PartialEq, Eq)]
pub enum Kind {
    /// A letter, followed by letters, digits and `_`.
    Word,
    /// One or more digits, of a value of at most 9,223,372,036,854,775,807.
    Number,
    /// `=>`, `:=`, `==`, `!=`, `<=` or `>=`, else any one other byte.
    Sign,
}

/// A token of a text.
#[derive(Clone, Copy, Debug, PartialEq, Eq)]
pub struct Token {
    pub kind: Kind,
    /// How many bytes stand before its first byte.
    pub start: u32,
    /// How many bytes stand before the byte after its last one.
    pub end: u32,
    /// The place of its first byte.
    pub at: Place,
}

/// The bytes of a token, which takes no memory.
pub fn text<'a>(bytes: &'a [u8], token: &Token) -> &'a [u8]
    requires ordered { token.now.start ≤ token.now.end }
    requires within { token.now.end ≤ length bytes.now }
    ensures { result.now ≡ token_text bytes.now token.now }
{
    &bytes[token.start as usize..token.end as usize]
}
