//! Texts: terms and patterns that are not read yet.

ghost use Rattle.std.specs.Prelude.{◌≡◌, ◌<◌, ◌≤◌, length, IfOk};
ghost use Rattle.elan_phrases.specs.Input.{Reads};
ghost use Rattle.elan_phrases.specs.Texts as grammar;

use crate::halt::Halt;
use crate::reader::Reader;
use crate::span::Span;
use crate::symbol_set::SymbolSet;

/// Takes one or more tokens of a text.
#[tactic(auto, unfolding(crate::specs::Texts::text))]
pub fn text(reader: &mut Reader<'_>) -> Result<Span, Halt>
    ensures read { Reads grammar.text reader.old result reader.new }
    ensures shorter { IfOk result (λ _. length reader.new.rest < length reader.old.rest) }
{
    let first = reader.at();
    text_token(reader)?;
    more_text(reader)?;
    Ok(Span {
        first,
        past: reader.at(),
    })
}

/// Takes a token of a text.
#[tactic(auto, unfolding(crate::specs::Texts::text_token))]
fn text_token(reader: &mut Reader<'_>) -> Result<(), Halt>
    ensures read { Reads grammar.text_token reader.old result reader.new }
    ensures shorter { IfOk result (λ _. length reader.new.rest < length reader.old.rest) }
{
    let fits = reader.sees_any(SymbolSet::InText);
    reader.skip(fits)
}

/// Takes all tokens of a text that are next.
#[tactic(auto, using(crate::proofs::ExactTexts::more_text_reads))]
fn more_text(reader: &mut Reader<'_>) -> Result<(), Halt>
    ensures read { Reads grammar.more_text reader.old result reader.new }
    ensures no_longer { IfOk result (λ _. length reader.new.rest ≤ length reader.old.rest) }
{
    'tokens: while reader.sees_any(SymbolSet::InText) {
        text_token(reader)?;
    }
    Ok(())
}
