//! Modules.

ghost use Rattle.std.specs.Prelude.{◌≡◌, ◌<◌, ◌≤◌, [], length, IfOk};
ghost use Rattle.elan_phrases.specs.Input.{Reads};
ghost use Rattle.elan_syntax.specs.Grammar as grammar;
ghost use Rattle.elan_phrases.specs.Symbols.{a, names, the_name};

use crate::definitions::strategies;
use crate::imports::imports;
use crate::operators::operators;
use crate::parameters::some_parameters;
use crate::parts::{ModuleOutline, Section};
use crate::rules::rules;
use crate::sorts::sorts;
use elan_phrases::{Halt, Reader, Symbol, SymbolSet, pushed};
use elan_text::Name;
use sqlite_items::Items;
use std::alloc::Global;

/// Takes each module.
#[tactic(auto, using(crate::proofs::Turns::more_modules_reads))]
pub fn more_modules(alloc: Global, reader: &mut Reader<'_>) -> Result<Items<ModuleOutline>, Halt>
    ensures read { Reads (grammar.more_modules []) reader.old result reader.new }
    ensures no_longer { IfOk result (λ _. length reader.new.rest ≤ length reader.old.rest) }
{
    let mut found = Items::new(alloc);
    'modules: while reader.sees(Symbol::Module) {
        let next = any_module(alloc, reader)?;
        found = pushed(found, next)?;
    }
    Ok(found)
}

/// Takes a module.
#[tactic(auto, unfolding(crate::specs::Grammar::module_of))]
fn any_module(alloc: Global, reader: &mut Reader<'_>) -> Result<ModuleOutline, Halt>
    ensures read { Reads (grammar.module_of (a names)) reader.old result reader.new }
    ensures shorter { IfOk result (λ _. length reader.new.rest < length reader.old.rest) }
{
    reader.sign(Symbol::Module)?;
    let name = reader.name_number()?;
    module_behind(alloc, reader, name)
}

/// Takes a module of this name.
#[tactic(auto, unfolding(crate::specs::Grammar::module_of))]
pub fn module_called(
    alloc: Global,
    reader: &mut Reader<'_>,
    wanted: &Name,
) -> Result<ModuleOutline, Halt>
    ensures read { Reads (grammar.module_of (the_name wanted.now)) reader.old result reader.new }
    ensures shorter { IfOk result (λ _. length reader.new.rest < length reader.old.rest) }
{
    reader.sign(Symbol::Module)?;
    let fits = reader.sees_the_name(wanted);
    let name = reader.number(fits)?;
    module_behind(alloc, reader, name)
}

/// Takes what stands behind a module's name of this number.
#[tactic(auto, unfolding(crate::specs::Grammar::module_behind))]
fn module_behind(alloc: Global, reader: &mut Reader<'_>, name: u32) -> Result<ModuleOutline, Halt>
    ensures read { Reads (grammar.module_behind name) reader.old result reader.new }
    ensures shorter { IfOk result (λ _. length reader.new.rest < length reader.old.rest) }
{
    let parameters = some_parameters(alloc, reader)?;
    let sections = sections(alloc, reader)?;
    reader.sign(Symbol::End)?;
    Ok(ModuleOutline {
        name,
        parameters,
        sections,
    })
}

/// Takes each section.
#[tactic(auto, using(crate::proofs::Turns::sections_reads))]
fn sections(alloc: Global, reader: &mut Reader<'_>) -> Result<Items<Section>, Halt>
    ensures read { Reads (grammar.sections []) reader.old result reader.new }
    ensures no_longer { IfOk result (λ _. length reader.new.rest ≤ length reader.old.rest) }
{
    let mut found = Items::new(alloc);
    'sections: while reader.sees_any(SymbolSet::BeginsSection) {
        let next = section(alloc, reader)?;
        found = pushed(found, next)?;
    }
    Ok(found)
}

/// Takes a section.
#[tactic(auto, unfolding(crate::specs::Grammar::section_rule, crate::specs::Grammar::imports, crate::specs::Grammar::sorts, crate::specs::Grammar::operators, crate::specs::Grammar::rules))]
fn section(alloc: Global, reader: &mut Reader<'_>) -> Result<Section, Halt>
    ensures read { Reads grammar.section_rule reader.old result reader.new }
    ensures shorter { IfOk result (λ _. length reader.new.rest < length reader.old.rest) }
{
    if reader.sees(Symbol::Import) {
        imports(alloc, reader)
    } else if reader.sees(Symbol::Sort) {
        sorts(alloc, reader)
    } else if reader.sees(Symbol::Operators) {
        operators(alloc, reader)
    } else if reader.sees(Symbol::Rules) {
        rules(alloc, reader)
    } else {
        strategies(alloc, reader)
    }
}
