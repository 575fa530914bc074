//! Sections of sorts.

ghost use Rattle.std.specs.Prelude.{◌≡◌, ◌<◌, ◌≤◌, length, IfOk};
ghost use Rattle.elan_phrases.specs.Input.{Reads};
ghost use Rattle.elan_syntax.specs.Grammar as grammar;

use crate::parts::Section;
use elan_phrases::{Halt, Reader, Symbol, more_sorts};
use sqlite_items::Items;
use std::alloc::Global;

/// Takes a section of sorts.
#[tactic(auto, unfolding(crate::specs::Grammar::sorts))]
pub fn sorts(alloc: Global, reader: &mut Reader<'_>) -> Result<Section, Halt>
    ensures read { Reads grammar.sorts reader.old result reader.new }
    ensures shorter { IfOk result (λ _. length reader.new.rest < length reader.old.rest) }
{
    reader.sign(Symbol::Sort)?;
    let found = more_sorts(reader, Items::new(alloc))?;
    reader.sign(Symbol::Semicolon)?;
    reader.sign(Symbol::End)?;
    Ok(Section::Sorts(found))
}
