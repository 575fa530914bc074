//! Tokens with their symbols.

ghost use Rattle.std.specs.Prelude.{◌≡◌, ◌∷◌, [], length, IfOk};
ghost use Rattle.std.specs.List.{All};
ghost use Rattle.elan_lexer.specs.Text.{IsInside};
ghost use Rattle.elan_phrases.specs.Input.{seen_of};
ghost use Rattle.elan_phrases.specs.Symbols.{seen};

use crate::symbol::{Lexeme, symbol_of};
use elan_lexer::{Token, text};
use elan_text::NoMemory;
use std::alloc::Global;

/// The tokens of a text with their symbols, in the same order.
#[tactic(auto, unfolding(crate::specs::Symbols::seen))]
pub fn lexemes<'a>(
    alloc: Global,
    bytes: &'a [u8],
    tokens: &[Token],
) -> Result<Vec<Lexeme<'a>>, NoMemory>
    requires { All (λ t. IsInside bytes.now t) tokens.now }
    ensures value { IfOk result (λ found. seen_of found.items ≡ seen bytes.now tokens.now) }
    ensures count { IfOk result (λ found. length found.items ≡ length tokens.now) }
{
    let mut found = Vec::new(alloc);
    'tokens: for token in tokens {
        found.push(lexeme(bytes, token))?;
    }
    Ok(found)
}

/// A token with its symbol.
#[tactic(auto, unfolding(crate::specs::Symbols::seen))]
fn lexeme<'a>(bytes: &'a [u8], token: &Token) -> Lexeme<'a>
    requires { IsInside bytes.now token.now }
    ensures { seen_of (result ∷ []) ≡ seen bytes.now (token.now ∷ []) }
{
    let text = text(bytes, token);
    Lexeme {
        symbol: symbol_of(token.kind, text),
        text,
    }
}
