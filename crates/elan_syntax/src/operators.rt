//! Sections of operators.

ghost use Rattle.std.specs.Prelude.{◌≡◌, ◌<◌, ◌≤◌, [], length, IfOk};
ghost use Rattle.elan_phrases.specs.Input.{Reads};
ghost use Rattle.elan_syntax.specs.Grammar as grammar;

use crate::attributes::some_attributes;
use crate::parts::{OpDecl, Section};
use elan_phrases::{Halt, Reader, Span, Symbol, SymbolSet, more_sorts, pushed, sort_span};
use sqlite_items::Items;
use std::alloc::Global;

/// Takes a section of operators.
#[tactic(auto, unfolding(crate::specs::Grammar::operators))]
pub fn operators(alloc: Global, reader: &mut Reader<'_>) -> Result<Section, Halt>
    ensures read { Reads grammar.operators reader.old result reader.new }
    ensures shorter { IfOk result (λ _. length reader.new.rest < length reader.old.rest) }
{
    reader.sign(Symbol::Operators)?;
    let found = more_declared(alloc, reader)?;
    reader.sign(Symbol::End)?;
    Ok(Section::Operators(found))
}

/// Takes each declaration, and skips each `global` and `local`.
#[tactic(auto, using(crate::proofs::Turns::more_declared_reads))]
fn more_declared(alloc: Global, reader: &mut Reader<'_>) -> Result<Items<OpDecl>, Halt>
    ensures read { Reads (grammar.more_declared []) reader.old result reader.new }
    ensures no_longer { IfOk result (λ _. length reader.new.rest ≤ length reader.old.rest) }
{
    let mut found = Items::new(alloc);
    'declarations: while reader.sees_any(SymbolSet::BeginsDeclared) {
        found = declared(alloc, reader, found)?;
    }
    Ok(found)
}

/// Takes a declaration and puts it behind those before, or skips `global` or `local`.
#[tactic(auto, unfolding(crate::specs::Grammar::declared, elan_phrases::specs::Tokens::visibility))]
fn declared(
    alloc: Global,
    reader: &mut Reader<'_>,
    before: Items<OpDecl>,
) -> Result<Items<OpDecl>, Halt>
    ensures read { Reads (grammar.declared before) reader.old result reader.new }
    ensures shorter { IfOk result (λ _. length reader.new.rest < length reader.old.rest) }
{
    if reader.sees_any(SymbolSet::Visibilities) {
        reader.visibility()?;
        Ok(before)
    } else {
        let found = declaration(alloc, reader)?;
        pushed(before, found)
    }
}

/// Takes a declaration of an operator.
#[tactic(auto, unfolding(crate::specs::Grammar::declaration))]
fn declaration(alloc: Global, reader: &mut Reader<'_>) -> Result<OpDecl, Halt>
    ensures read { Reads grammar.declaration reader.old result reader.new }
    ensures shorter { IfOk result (λ _. length reader.new.rest < length reader.old.rest) }
{
    let spelling = spelling(reader)?;
    reader.sign(Symbol::Colon)?;
    let args = some_argument_sorts(alloc, reader)?;
    let sort = sort_span(reader)?;
    let attributes = some_attributes(reader)?;
    reader.sign(Symbol::Semicolon)?;
    Ok(OpDecl {
        spelling,
        args,
        sort,
        attributes,
    })
}

/// Takes the spelling of an operator.
#[tactic(auto, unfolding(crate::specs::Grammar::spelling))]
fn spelling(reader: &mut Reader<'_>) -> Result<Span, Halt>
    ensures read { Reads grammar.spelling reader.old result reader.new }
    ensures shorter { IfOk result (λ _. length reader.new.rest < length reader.old.rest) }
{
    let first = reader.at();
    let fits = reader.sees_any(SymbolSet::Spelled);
    reader.skip(fits)?;
    more_spelled(reader)?;
    Ok(Span {
        first,
        past: reader.at(),
    })
}

/// Takes each further token of a spelling.
#[tactic(auto, using(crate::proofs::Turns::more_spelled_reads))]
fn more_spelled(reader: &mut Reader<'_>) -> Result<(), Halt>
    ensures read { Reads grammar.more_spelled reader.old result reader.new }
    ensures no_longer { IfOk result (λ _. length reader.new.rest ≤ length reader.old.rest) }
{
    'tokens: while reader.sees_any(SymbolSet::Spelled) {
        reader.skip(true)?;
    }
    Ok(())
}

/// Takes the sorts of the arguments in parentheses, where there are any.
#[tactic(auto, unfolding(crate::specs::Grammar::argument_sorts))]
fn some_argument_sorts(alloc: Global, reader: &mut Reader<'_>) -> Result<Items<Span>, Halt>
    ensures read { Reads grammar.some_argument_sorts reader.old result reader.new }
    ensures no_longer { IfOk result (λ _. length reader.new.rest ≤ length reader.old.rest) }
{
    if reader.sees(Symbol::LeftRound) {
        argument_sorts(alloc, reader)
    } else {
        Ok(Items::new(alloc))
    }
}

/// Takes the sorts of the arguments in parentheses, which may be none.
#[tactic(auto, unfolding(crate::specs::Grammar::argument_sorts))]
fn argument_sorts(alloc: Global, reader: &mut Reader<'_>) -> Result<Items<Span>, Halt>
    ensures read { Reads grammar.argument_sorts reader.old result reader.new }
    ensures shorter { IfOk result (λ _. length reader.new.rest < length reader.old.rest) }
{
    reader.sign(Symbol::LeftRound)?;
    let found = more_sorts(reader, Items::new(alloc))?;
    reader.sign(Symbol::RightRound)?;
    Ok(found)
}
