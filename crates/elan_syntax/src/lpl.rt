//! The `LPL` text.

ghost use Rattle.std.specs.Prelude.{◌≡◌, ◌<◌, ◌≤◌, length, IfOk};
ghost use Rattle.elan_phrases.specs.Input.{Reads};
ghost use Rattle.elan_syntax.specs.Grammar as grammar;

use crate::parts::LplOutline;
use elan_phrases::{
    Halt, Importer, Planned, Reader, Span, Symbol, references, some_strategy, sort_span,
};
use sqlite_items::Items;
use std::alloc::Global;

/// Takes the `LPL` text.
#[tactic(auto, unfolding(crate::specs::Grammar::lpl))]
pub fn lpl(alloc: Global, reader: &mut Reader<'_>) -> Result<LplOutline, Halt>
    ensures read { Reads grammar.lpl reader.old result reader.new }
    ensures shorter { IfOk result (λ _. length reader.new.rest < length reader.old.rest) }
{
    reader.sign(Symbol::Lpl)?;
    reader.name()?;
    reader.sign(Symbol::Description)?;
    let query_sort = sort_of(reader, Symbol::Query)?;
    let result_sort = sort_of(reader, Symbol::Result)?;
    let imports = lpl_imports(alloc, reader)?;
    let start = start_with(alloc, reader)?;
    reader.sign(Symbol::Query)?;
    reader.sign(Symbol::End)?;
    Ok(LplOutline {
        query_sort,
        result_sort,
        imports,
        start,
    })
}

/// Takes this word, `of sort` and a sort.
#[tactic(auto, unfolding(crate::specs::Grammar::sort_of))]
fn sort_of(reader: &mut Reader<'_>, word: Symbol) -> Result<Span, Halt>
    ensures read { Reads (grammar.sort_of word) reader.old result reader.new }
    ensures shorter { IfOk result (λ _. length reader.new.rest < length reader.old.rest) }
{
    reader.sign(word)?;
    reader.sign(Symbol::Of)?;
    reader.sign(Symbol::Sort)?;
    sort_span(reader)
}

/// Takes the imports.
#[tactic(auto, unfolding(crate::specs::Grammar::lpl_imports))]
fn lpl_imports(alloc: Global, reader: &mut Reader<'_>) -> Result<Items<Span>, Halt>
    ensures read { Reads grammar.lpl_imports reader.old result reader.new }
    ensures shorter { IfOk result (λ _. length reader.new.rest < length reader.old.rest) }
{
    reader.sign(Symbol::Import)?;
    references(reader, Importer::AnLplText, Items::new(alloc))
}

/// Takes the start strategy with `start with` and its parentheses.
#[tactic(auto, unfolding(crate::specs::Grammar::start_with))]
fn start_with(alloc: Global, reader: &mut Reader<'_>) -> Result<Option<Planned>, Halt>
    ensures read { Reads grammar.start_with reader.old result reader.new }
    ensures shorter { IfOk result (λ _. length reader.new.rest < length reader.old.rest) }
{
    reader.sign(Symbol::Start)?;
    reader.sign(Symbol::With)?;
    reader.sign(Symbol::LeftRound)?;
    let start = some_strategy(alloc, reader)?;
    reader.sign(Symbol::RightRound)?;
    Ok(start)
}
