//! Sort expressions, whose names are counted.

ghost use Rattle.std.specs.Prelude.{◌≡◌, ◌<◌, ◌≤◌, length, IfOk};
ghost use Rattle.elan_phrases.specs.Input.{Reads};
ghost use Rattle.elan_phrases.specs.SortExpressions as grammar;

use crate::halt::{Halt, pushed};
use crate::reader::Reader;
use crate::span::Span;
use crate::symbol::Symbol;
use crate::symbol_set::SymbolSet;
use sqlite_items::Items;

/// The most names that a sort expression may have.
const MOST_SORT_NAMES: u32 = 64;

/// Takes a sort expression.
#[tactic(auto, unfolding(crate::specs::SortExpressions::sort_span))]
pub fn sort_span(reader: &mut Reader<'_>) -> Result<Span, Halt>
    ensures read { Reads grammar.sort_span reader.old result reader.new }
    ensures shorter { IfOk result (λ _. length reader.new.rest < length reader.old.rest) }
{
    let first = reader.at();
    sort(reader, MOST_SORT_NAMES)?;
    Ok(Span {
        first,
        past: reader.at(),
    })
}

/// Takes the arguments of a sort and the `]` that closes them, where its name and the `[` were taken.
#[tactic(auto, unfolding(crate::specs::SortExpressions::closing_arguments))]
pub fn closing_arguments(reader: &mut Reader<'_>) -> Result<(), Halt>
    ensures read { Reads grammar.closing_arguments reader.old result reader.new }
    ensures no_longer { IfOk result (λ _. length reader.new.rest ≤ length reader.old.rest) }
{
    arguments(reader, MOST_SORT_NAMES - 1)?;
    Ok(())
}

/// Takes each further sort expression, and puts it behind those before.
#[tactic(auto, using(crate::proofs::ExactSorts::more_sorts_reads))]
pub fn more_sorts(reader: &mut Reader<'_>, before: Items<Span>) -> Result<Items<Span>, Halt>
    ensures read { Reads (grammar.more_sorts before) reader.old result reader.new }
    ensures no_longer { IfOk result (λ _. length reader.new.rest ≤ length reader.old.rest) }
{
    let mut found = before;
    'sorts: while reader.sees_any(SymbolSet::Names) {
        let sort = sort_span(reader)?;
        found = pushed(found, sort)?;
    }
    Ok(found)
}

/// Takes a sort expression, of whose names so many are left, and answers how many are left then.
#[cycle(sort)]
#[tactic(auto, using(crate::proofs::ExactSorts::sort_reads), unfolding(crate::specs::SortExpressions::bracketed))]
fn sort(reader: &mut Reader<'_>, left: u32) -> Result<u32, Halt>
    ensures read { Reads (grammar.sort left) reader.old result reader.new }
    ensures fewer { IfOk result (λ now. now < left) }
{
    let fits = reader.sees_any(SymbolSet::Names);
    let left = reader.counted(fits, left)?;
    if reader.sees(Symbol::LeftSquare) {
        reader.sign(Symbol::LeftSquare)?;
        arguments(reader, left)
    } else {
        Ok(left)
    }
}

/// Takes the arguments of a sort and the bracket that closes them, of whose names so many are left.
#[cycle(sort)]
#[tactic(auto, unfolding(crate::specs::SortExpressions::arguments))]
fn arguments(reader: &mut Reader<'_>, left: u32) -> Result<u32, Halt>
    ensures read { Reads (grammar.arguments grammar.sort left) reader.old result reader.new }
    ensures fewer { IfOk result (λ now. now < left) }
{
    let left = sort(reader, left)?;
    let left = more_arguments(reader, left)?;
    reader.sign(Symbol::RightSquare)?;
    Ok(left)
}

/// Takes each further argument, behind its comma.
#[cycle(sort)]
#[tactic(auto, using(crate::proofs::ExactSorts::more_arguments_reads))]
fn more_arguments(reader: &mut Reader<'_>, left: u32) -> Result<u32, Halt>
    ensures read { Reads (grammar.more_arguments grammar.sort left) reader.old result reader.new }
    ensures fewer { IfOk result (λ now. now ≤ left) }
{
    let mut now = left;
    'arguments: while reader.sees(Symbol::Comma) {
        reader.sign(Symbol::Comma)?;
        now = sort(reader, now)?;
    }
    Ok(now)
}
