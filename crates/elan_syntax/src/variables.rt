//! Declarations of variables.

ghost use Rattle.std.specs.Prelude.{◌≡◌, ◌<◌, ◌≤◌, length, IfOk};
ghost use Rattle.elan_phrases.specs.Input.{Reads};
ghost use Rattle.elan_syntax.specs.Grammar as grammar;

use crate::parts::Vars;
use elan_phrases::{Halt, Reader, Symbol, SymbolSet, pushed, sort_span};
use sqlite_items::Items;
use std::alloc::Global;

/// Takes a declaration of variables.
#[tactic(auto, unfolding(crate::specs::Grammar::vars))]
pub fn vars(alloc: Global, reader: &mut Reader<'_>) -> Result<Vars, Halt>
    ensures read { Reads grammar.vars reader.old result reader.new }
    ensures shorter { IfOk result (λ _. length reader.new.rest < length reader.old.rest) }
{
    let first = reader.name_number()?;
    let first = pushed(Items::new(alloc), first)?;
    let names = more_names(reader, first)?;
    reader.sign(Symbol::Colon)?;
    let sort = sort_span(reader)?;
    reader.sign(Symbol::Semicolon)?;
    Ok(Vars { names, sort })
}

/// Takes each further declaration of variables, and puts it behind those before.
#[tactic(auto, using(crate::proofs::Turns::more_vars_reads))]
pub fn more_vars(
    alloc: Global,
    reader: &mut Reader<'_>,
    before: Items<Vars>,
) -> Result<Items<Vars>, Halt>
    ensures read { Reads (grammar.more_vars before) reader.old result reader.new }
    ensures no_longer { IfOk result (λ _. length reader.new.rest ≤ length reader.old.rest) }
{
    let mut found = before;
    'vars: while reader.sees_any(SymbolSet::Names) {
        let next = vars(alloc, reader)?;
        found = pushed(found, next)?;
    }
    Ok(found)
}

/// Takes each further name, and puts it behind those before.
#[tactic(auto, using(crate::proofs::Turns::more_names_reads))]
fn more_names(reader: &mut Reader<'_>, before: Items<u32>) -> Result<Items<u32>, Halt>
    ensures read { Reads (grammar.more_names before) reader.old result reader.new }
    ensures no_longer { IfOk result (λ _. length reader.new.rest ≤ length reader.old.rest) }
{
    let mut found = before;
    'names: while reader.sees_any(SymbolSet::BeginsAnotherName) {
        let name = another_name(reader)?;
        found = pushed(found, name)?;
    }
    Ok(found)
}

/// Takes a name, which may have a comma before it.
#[tactic(auto, unfolding(crate::specs::Grammar::another_name))]
fn another_name(reader: &mut Reader<'_>) -> Result<u32, Halt>
    ensures read { Reads grammar.another_name reader.old result reader.new }
    ensures shorter { IfOk result (λ _. length reader.new.rest < length reader.old.rest) }
{
    if reader.sees(Symbol::Comma) {
        reader.sign(Symbol::Comma)?;
        reader.name_number()
    } else {
        reader.name_number()
    }
}
