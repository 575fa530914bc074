//! References to modules.

ghost use Rattle.std.specs.Prelude.{◌≡◌, ◌<◌, ◌≤◌, length, IfOk};
ghost use Rattle.elan_phrases.specs.Input.{Reads};
ghost use Rattle.elan_phrases.specs.Symbols.{importable};
ghost use Rattle.elan_phrases.specs.SortExpressions as grammar;

use crate::halt::{Halt, pushed};
use crate::reader::Reader;
use crate::sort_expressions::sort_span;
use crate::span::Span;
use crate::symbol::{Importer, Symbol};
use crate::symbol_set::SymbolSet;
use sqlite_items::Items;

/// Takes one or more references, and puts them behind those before.
#[tactic(auto, unfolding(crate::specs::SortExpressions::references))]
pub fn references(
    reader: &mut Reader<'_>,
    importer: Importer,
    before: Items<Span>,
) -> Result<Items<Span>, Halt>
    ensures read { Reads
        (grammar.references (importable importer) before) reader.old result reader.new }
    ensures shorter { IfOk result (λ _. length reader.new.rest < length reader.old.rest) }
{
    let first = reference(reader, importer)?;
    let found = pushed(before, first)?;
    more_references(reader, importer, found)
}

/// Takes each further reference, and puts it behind those before.
#[tactic(auto, using(crate::proofs::ExactSorts::more_references_reads))]
fn more_references(
    reader: &mut Reader<'_>,
    importer: Importer,
    before: Items<Span>,
) -> Result<Items<Span>, Halt>
    ensures read { Reads
        (grammar.more_references (importable importer) before) reader.old result reader.new }
    ensures no_longer { IfOk result (λ _. length reader.new.rest ≤ length reader.old.rest) }
{
    let mut found = before;
    'references: while reader.sees_any(SymbolSet::Importable(importer)) {
        let next = reference(reader, importer)?;
        found = pushed(found, next)?;
    }
    Ok(found)
}

/// Takes a reference.
#[tactic(auto, unfolding(crate::specs::SortExpressions::reference, crate::specs::SortExpressions::actuals))]
fn reference(reader: &mut Reader<'_>, importer: Importer) -> Result<Span, Halt>
    ensures read { Reads (grammar.reference (importable importer)) reader.old result reader.new }
    ensures shorter { IfOk result (λ _. length reader.new.rest < length reader.old.rest) }
{
    let first = reader.at();
    let fits = reader.sees_any(SymbolSet::Importable(importer));
    reader.skip(fits)?;
    if reader.sees(Symbol::LeftSquare) {
        actuals(reader)?;
    }
    Ok(Span {
        first,
        past: reader.at(),
    })
}

/// Takes the arguments of a reference, with their brackets.
#[tactic(auto, unfolding(crate::specs::SortExpressions::actuals))]
fn actuals(reader: &mut Reader<'_>) -> Result<(), Halt>
    ensures read { Reads grammar.actuals reader.old result reader.new }
    ensures shorter { IfOk result (λ _. length reader.new.rest < length reader.old.rest) }
{
    reader.sign(Symbol::LeftSquare)?;
    sort_span(reader)?;
    more_actuals(reader)?;
    reader.sign(Symbol::RightSquare)
}

/// Takes each further argument, behind its comma.
#[tactic(auto, using(crate::proofs::ExactSorts::more_actuals_reads))]
fn more_actuals(reader: &mut Reader<'_>) -> Result<(), Halt>
    ensures read { Reads grammar.more_actuals reader.old result reader.new }
    ensures no_longer { IfOk result (λ _. length reader.new.rest ≤ length reader.old.rest) }
{
    'arguments: while reader.sees(Symbol::Comma) {
        reader.sign(Symbol::Comma)?;
        sort_span(reader)?;
    }
    Ok(())
}
