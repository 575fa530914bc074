//! Sections of strategies.

ghost use Rattle.std.specs.Prelude.{◌≡◌, ◌<◌, ◌≤◌, length, IfOk};
ghost use Rattle.elan_phrases.specs.Input.{Reads};
ghost use Rattle.elan_syntax.specs.Grammar as grammar;

use crate::parts::{Definition, Section};
use crate::rules::bracket;
use elan_phrases::{
    Halt, Reader, Span, Symbol, SymbolSet, closing_arguments, pushed, strategy_plan,
};
use sqlite_items::Items;
use std::alloc::Global;

/// A section of strategies: its sort and its definitions.
#[derive(Drop)]
pub struct StrategiesFor {
    pub sort: Span,
    pub definitions: Items<Definition>,
}

/// Takes a section of strategies.
#[tactic(auto, unfolding(crate::specs::Grammar::strategies))]
pub fn strategies(alloc: Global, reader: &mut Reader<'_>) -> Result<Section, Halt>
    ensures read { Reads grammar.strategies reader.old result reader.new }
    ensures shorter { IfOk result (λ _. length reader.new.rest < length reader.old.rest) }
{
    reader.sign(Symbol::Strategies)?;
    reader.sign(Symbol::For)?;
    let StrategiesFor { sort, definitions } = strategies_for(alloc, reader)?;
    reader.sign(Symbol::End)?;
    Ok(Section::Strategies { sort, definitions })
}

/// Takes the sort of a section and its definitions.
#[tactic(auto, unfolding(crate::specs::Grammar::strategies_for))]
fn strategies_for(alloc: Global, reader: &mut Reader<'_>) -> Result<StrategiesFor, Halt>
    ensures read { Reads grammar.strategies_for reader.old result reader.new }
    ensures shorter { IfOk result (λ _. length reader.new.rest < length reader.old.rest) }
{
    let name = reader.name_span()?;
    behind_defined(alloc, reader, name)
}

/// Takes what stands behind the name of a section's sort.
#[tactic(auto, unfolding(crate::specs::Grammar::behind_defined, crate::specs::Grammar::defined_bracket, crate::specs::Grammar::mark_first, crate::specs::Grammar::mark))]
fn behind_defined(alloc: Global, reader: &mut Reader<'_>, name: Span) -> Result<StrategiesFor, Halt>
    ensures read { Reads (grammar.behind_defined name) reader.old result reader.new }
    ensures no_longer { IfOk result (λ _. length reader.new.rest ≤ length reader.old.rest) }
{
    if reader.sees(Symbol::LeftSquare) {
        defined_bracket(alloc, reader, name)
    } else if reader.sees_any(SymbolSet::BeginsMark) {
        mark_first(alloc, reader, name)
    } else {
        Ok(StrategiesFor {
            sort: name,
            definitions: Items::new(alloc),
        })
    }
}

/// Takes a `[` and what stands behind it: the rest of a definition where that is `]`, and else the arguments of the
/// sort.
#[tactic(auto, unfolding(crate::specs::Grammar::defined_bracket, crate::specs::Grammar::definition_first, crate::specs::Grammar::definition_behind))]
fn defined_bracket(
    alloc: Global,
    reader: &mut Reader<'_>,
    name: Span,
) -> Result<StrategiesFor, Halt>
    ensures read { Reads (grammar.defined_bracket name) reader.old result reader.new }
    ensures shorter { IfOk result (λ _. length reader.new.rest < length reader.old.rest) }
{
    let at = bracket(reader)?;
    if reader.sees(Symbol::RightSquare) {
        definition_first(alloc, reader, name, at)
    } else {
        defined_sort(alloc, reader, name)
    }
}

/// Takes the rest of a definition, and each further definition.
#[tactic(auto, unfolding(crate::specs::Grammar::definition_first))]
fn definition_first(
    alloc: Global,
    reader: &mut Reader<'_>,
    name: Span,
    at: u32,
) -> Result<StrategiesFor, Halt>
    ensures read { Reads (grammar.definition_first name at) reader.old result reader.new }
    ensures shorter { IfOk result (λ _. length reader.new.rest < length reader.old.rest) }
{
    let first = definition_behind(alloc, reader, at)?;
    let first = pushed(Items::new(alloc), first)?;
    let definitions = more_defined(alloc, reader, first)?;
    Ok(StrategiesFor {
        sort: name,
        definitions,
    })
}

/// Takes the arguments of the sort, and each definition.
#[tactic(auto, unfolding(crate::specs::Grammar::defined_sort))]
fn defined_sort(alloc: Global, reader: &mut Reader<'_>, name: Span) -> Result<StrategiesFor, Halt>
    ensures read { Reads (grammar.defined_sort name) reader.old result reader.new }
    ensures no_longer { IfOk result (λ _. length reader.new.rest ≤ length reader.old.rest) }
{
    closing_arguments(reader)?;
    let past = reader.at();
    let definitions = more_defined(alloc, reader, Items::new(alloc))?;
    Ok(StrategiesFor {
        sort: Span {
            first: name.first,
            past,
        },
        definitions,
    })
}

/// Takes `global`, `local` or `implicit`, and each definition.
#[tactic(auto, unfolding(crate::specs::Grammar::mark_first))]
fn mark_first(alloc: Global, reader: &mut Reader<'_>, name: Span) -> Result<StrategiesFor, Halt>
    ensures read { Reads (grammar.mark_first name) reader.old result reader.new }
    ensures shorter { IfOk result (λ _. length reader.new.rest < length reader.old.rest) }
{
    mark(reader)?;
    let definitions = more_defined(alloc, reader, Items::new(alloc))?;
    Ok(StrategiesFor {
        sort: name,
        definitions,
    })
}

/// Takes each further definition and puts it behind those before, and skips each `global`, `local` and `implicit`.
#[tactic(auto, using(crate::proofs::Turns::more_defined_reads))]
fn more_defined(
    alloc: Global,
    reader: &mut Reader<'_>,
    before: Items<Definition>,
) -> Result<Items<Definition>, Halt>
    ensures read { Reads (grammar.more_defined before) reader.old result reader.new }
    ensures no_longer { IfOk result (λ _. length reader.new.rest ≤ length reader.old.rest) }
{
    let mut found = before;
    'definitions: while reader.sees_any(SymbolSet::BeginsDefined) {
        found = defined(alloc, reader, found)?;
    }
    Ok(found)
}

/// Takes a definition and puts it behind those before, or skips `global`, `local` or `implicit`.
#[tactic(auto, unfolding(crate::specs::Grammar::defined, crate::specs::Grammar::mark))]
fn defined(
    alloc: Global,
    reader: &mut Reader<'_>,
    before: Items<Definition>,
) -> Result<Items<Definition>, Halt>
    ensures read { Reads (grammar.defined before) reader.old result reader.new }
    ensures shorter { IfOk result (λ _. length reader.new.rest < length reader.old.rest) }
{
    if reader.sees_any(SymbolSet::BeginsMark) {
        mark(reader)?;
        Ok(before)
    } else {
        let found = definition(alloc, reader)?;
        pushed(before, found)
    }
}

/// Takes `global`, `local` or `implicit`.
#[tactic(auto, unfolding(crate::specs::Grammar::mark))]
fn mark(reader: &mut Reader<'_>) -> Result<(), Halt>
    ensures read { Reads grammar.mark reader.old result reader.new }
    ensures shorter { IfOk result (λ _. length reader.new.rest < length reader.old.rest) }
{
    let fits = reader.sees_any(SymbolSet::BeginsMark);
    reader.skip(fits)
}

/// Takes a definition.
#[tactic(auto, unfolding(crate::specs::Grammar::definition))]
fn definition(alloc: Global, reader: &mut Reader<'_>) -> Result<Definition, Halt>
    ensures read { Reads grammar.definition reader.old result reader.new }
    ensures shorter { IfOk result (λ _. length reader.new.rest < length reader.old.rest) }
{
    let at = bracket(reader)?;
    definition_behind(alloc, reader, at)
}

/// Takes a definition without the `[` of this number with which it begins.
#[tactic(auto, unfolding(crate::specs::Grammar::definition_behind))]
fn definition_behind(alloc: Global, reader: &mut Reader<'_>, at: u32) -> Result<Definition, Halt>
    ensures read { Reads (grammar.definition_behind at) reader.old result reader.new }
    ensures shorter { IfOk result (λ _. length reader.new.rest < length reader.old.rest) }
{
    reader.sign(Symbol::RightSquare)?;
    let fits = reader.sees_any(SymbolSet::Labels);
    let name = reader.number(fits)?;
    let parameters = some_formals(alloc, reader)?;
    reader.sign(Symbol::Arrow)?;
    let by = strategy_plan(alloc, reader)?;
    reader.sign(Symbol::End)?;
    Ok(Definition {
        at,
        name,
        parameters,
        by,
    })
}

/// Takes the parameters of a definition, where it has some.
#[tactic(auto, unfolding(crate::specs::Grammar::formals))]
fn some_formals(alloc: Global, reader: &mut Reader<'_>) -> Result<Items<u32>, Halt>
    ensures read { Reads grammar.some_formals reader.old result reader.new }
    ensures no_longer { IfOk result (λ _. length reader.new.rest ≤ length reader.old.rest) }
{
    if reader.sees(Symbol::LeftRound) {
        formals(alloc, reader)
    } else {
        Ok(Items::new(alloc))
    }
}

/// Takes the parameters of a definition with their parentheses.
#[tactic(auto, unfolding(crate::specs::Grammar::formals))]
fn formals(alloc: Global, reader: &mut Reader<'_>) -> Result<Items<u32>, Halt>
    ensures read { Reads grammar.formals reader.old result reader.new }
    ensures shorter { IfOk result (λ _. length reader.new.rest < length reader.old.rest) }
{
    reader.sign(Symbol::LeftRound)?;
    let first = one_label(reader, Items::new(alloc))?;
    let found = more_labels(reader, first)?;
    reader.sign(Symbol::RightRound)?;
    Ok(found)
}

/// Takes each further label, behind its comma, and puts it behind those before.
#[tactic(auto, using(crate::proofs::Turns::more_labels_reads))]
fn more_labels(reader: &mut Reader<'_>, before: Items<u32>) -> Result<Items<u32>, Halt>
    ensures read { Reads (grammar.more_labels before) reader.old result reader.new }
    ensures no_longer { IfOk result (λ _. length reader.new.rest ≤ length reader.old.rest) }
{
    let mut found = before;
    'labels: while reader.sees(Symbol::Comma) {
        reader.sign(Symbol::Comma)?;
        found = one_label(reader, found)?;
    }
    Ok(found)
}

/// Takes a label and puts it behind those before.
fn one_label(reader: &mut Reader<'_>, before: Items<u32>) -> Result<Items<u32>, Halt>
    ensures read { Reads (grammar.one_label before) reader.old result reader.new }
    ensures shorter { IfOk result (λ _. length reader.new.rest < length reader.old.rest) }
{
    let fits = reader.sees_any(SymbolSet::Labels);
    let at = reader.number(fits)?;
    pushed(before, at)
}
