//! Tokens as readings see them.

ghost use Rattle.std.specs.Prelude.{◌≡◌, ◌<◌, ◌^◌, true, map, IfOk};
ghost use Rattle.std.specs.List.{All};
ghost use Rattle.std.specs.Str.{bytes_eq};
ghost use Rattle.elan_lexer.specs.Text.{IsInside};
ghost use Rattle.elan_lexer.specs.Bytes.{value};
ghost use Rattle.elan_lexer.specs.declared.token.Kind.TheVariants.{Number as number_kind};
ghost use Rattle.elan_entries.specs.Lexemes as spec;
ghost use Rattle.elan_reading.specs.Lexemes.{lexeme_of};
ghost use Rattle.elan_entries.specs.Lexemes.{integer as integer_of};

use elan_lexer::{Kind, Token, text};
use elan_reading::Lexeme;
use elan_text::NoMemory;
use sqlite_items::Items;
use std::alloc::Global;

/// The kinds and bytes of these tokens of a text, in their order. The bytes are copied.
///
/// # Errors
///
/// The machine had no memory to give.
pub fn lexemes(alloc: Global, bytes: &[u8], tokens: &[Token]) -> Result<Items<Lexeme>, NoMemory>
    requires { All (IsInside bytes.now) tokens.now }
    ensures { IfOk result (λ l. l ≡ map (lexeme_of bytes.now) tokens.now) }
{
    let mut found = Items::new(alloc);
    for token in tokens {
        found.push(Lexeme {
            kind: token.kind,
            text: Items::from_slice(alloc, text(bytes, token))?,
        })?;
    }
    Ok(found)
}

/// Whether two words have the same bytes.
pub fn is_same(a: &[u8], b: &[u8]) -> bool
    ensures { result ≡ bytes_eq a.now b.now }
{
    a == b
}

/// Whether a token is a word.
pub fn is_word(token: &Lexeme) -> bool
    ensures { result ≡ spec.is_word_kind token.now.kind }
{
    matches!(token.kind, Kind::Word)
}

/// Whether a token is a number, that is digits.
pub fn is_number(token: &Lexeme) -> bool
    ensures exact { result ≡ spec.is_number_kind token.now.kind }
    ensures number { result ≡ true → token.now.kind ≡ number_kind }
{
    matches!(token.kind, Kind::Number)
}

/// Whether a token is the sign of one byte.
pub fn is_sign(byte: u8, token: &Lexeme) -> bool
    ensures { result ≡ spec.is_sign byte token.now }
{
    matches!(token.kind, Kind::Sign) && is_same(token.text.as_slice(), &[byte])
}

/// The value of digits.
#[tactic(auto, using(crate::proofs::Digits::value_le))]
fn value_of(digits: &[u8]) -> u64
    requires { value digits.now < 2 ^ 63 }
    ensures { result ≡ value digits.now }
{
    let mut n = 0;
    let mut left = digits;
    'digits: while let [digit, rest @ ..] = left {
        n = 10 * n + u64::from(digit.saturating_sub(48));
        left = rest;
    }
    n
}

/// The integer that a number's digits are, or its negative, in 64 bits with a sign.
pub fn integer(negative: bool, digits: &[u8]) -> i64
    requires { value digits.now < 2 ^ 63 }
    ensures { result ≡ integer_of negative digits.now }
{
    let value = value_of(digits) as i64;
    if negative { -value } else { value }
}
