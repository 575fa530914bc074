//! Sections of imports.

ghost use Rattle.std.specs.Prelude.{◌≡◌, ◌<◌, ◌≤◌, [], length, IfOk};
ghost use Rattle.elan_phrases.specs.Input.{Reads};
ghost use Rattle.elan_syntax.specs.Grammar as grammar;

use crate::parts::Section;
use elan_phrases::{Halt, Importer, Reader, Span, Symbol, SymbolSet, references};
use sqlite_items::Items;
use std::alloc::Global;

/// Takes a section of imports.
#[tactic(auto, unfolding(crate::specs::Grammar::imports))]
pub fn imports(alloc: Global, reader: &mut Reader<'_>) -> Result<Section, Halt>
    ensures read { Reads grammar.imports reader.old result reader.new }
    ensures shorter { IfOk result (λ _. length reader.new.rest < length reader.old.rest) }
{
    reader.sign(Symbol::Import)?;
    let found = more_imports(alloc, reader)?;
    reader.sign(Symbol::End)?;
    Ok(Section::Imports(found))
}

/// Takes each list of references.
#[tactic(auto, using(crate::proofs::Turns::more_imports_reads))]
fn more_imports(alloc: Global, reader: &mut Reader<'_>) -> Result<Items<Span>, Halt>
    ensures read { Reads (grammar.more_imports []) reader.old result reader.new }
    ensures no_longer { IfOk result (λ _. length reader.new.rest ≤ length reader.old.rest) }
{
    let mut found = Items::new(alloc);
    'imports: while reader.sees_any(SymbolSet::BeginsImported) {
        found = one_import(reader, found)?;
    }
    Ok(found)
}

/// Takes a list of references with its semicolon, which may have `global` or `local` before it, and puts them behind
/// those before.
#[tactic(auto, unfolding(crate::specs::Grammar::one_import, elan_phrases::specs::Tokens::visibility))]
fn one_import(reader: &mut Reader<'_>, before: Items<Span>) -> Result<Items<Span>, Halt>
    ensures read { Reads (grammar.one_import before) reader.old result reader.new }
    ensures shorter { IfOk result (λ _. length reader.new.rest < length reader.old.rest) }
{
    if reader.sees_any(SymbolSet::Visibilities) {
        reader.visibility()?;
        import_list(reader, before)
    } else {
        import_list(reader, before)
    }
}

/// Takes one or more references with their semicolon, and puts them behind those before.
#[tactic(auto, unfolding(crate::specs::Grammar::import_list))]
fn import_list(reader: &mut Reader<'_>, before: Items<Span>) -> Result<Items<Span>, Halt>
    ensures read { Reads (grammar.import_list before) reader.old result reader.new }
    ensures shorter { IfOk result (λ _. length reader.new.rest < length reader.old.rest) }
{
    let found = references(reader, Importer::AModule, before)?;
    reader.sign(Symbol::Semicolon)?;
    Ok(found)
}
