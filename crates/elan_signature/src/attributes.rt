//! The pieces of a spelling and the attributes of an operator.

ghost use Rattle.std.specs.Prelude.{◌≡◌, map, IfOk};
ghost use Rattle.elan_lexer.specs.Text.{token_text};
ghost use Rattle.elan_modules.specs.Sorts as words;
ghost use Rattle.elan_signature.specs.Declarations as spec;

use elan_lexer::Token;
use elan_modules::{LoadedText, part, word};
use elan_program::{Assoc, Piece};
use elan_syntax::{Side, Span};
use elan_text::{Name, NoMemory};
use sqlite_items::Items;
use std::alloc::Global;

/// The tokens of a span.
pub(crate) fn tokens_in(text: &LoadedText, span: Span) -> &[Token]
    ensures { map (token_text text.now.bytes) result.now ≡ words.words_in text.now span }
{
    part(
        text.tokens.as_slice(),
        span.first as usize,
        span.past as usize,
    )
}

/// A token of a spelling: `@` is a hole.
fn piece_of(alloc: Global, word: &[u8]) -> Result<Piece, NoMemory>
    ensures { IfOk result (λ piece. piece ≡ spec.piece_of word.now) }
{
    if word == b"@".as_slice() {
        Ok(Piece::Hole)
    } else {
        Ok(Piece::Word(Name::new(alloc, word)?))
    }
}

/// The pieces of a spelling.
pub(crate) fn pieces_of(
    alloc: Global,
    bytes: &[u8],
    tokens: &[Token],
) -> Result<Items<Piece>, NoMemory>
    ensures { IfOk result (λ pieces.
        pieces ≡ map spec.piece_of (map (token_text bytes.now) tokens.now)) }
{
    let mut pieces = Items::new(alloc);
    let mut left = tokens;
    'tokens: while let [token, rest @ ..] = left {
        pieces.push(piece_of(alloc, word(bytes, token))?)?;
        left = rest;
    }
    Ok(pieces)
}

/// The priority that is declared, or 0.
pub(crate) fn priority_of(declared: Option<u8>) -> u8
    ensures { result ≡ spec.priority_of declared }
{
    match declared {
        Some(priority) => priority,
        None => 0,
    }
}

/// The associativity that these attributes give.
pub(crate) fn associativity_of(declared: Option<Side>, ac: bool) -> Assoc
    ensures { result ≡ spec.associativity_of declared ac }
{
    match declared {
        Some(Side::Left) => Assoc::Left,
        Some(Side::Right) => Assoc::Right,
        None if ac => Assoc::Left,
        None => Assoc::No,
    }
}
