//! Clauses of rules.

ghost use Rattle.std.specs.Prelude.{◌≡◌, ◌<◌, ◌≤◌, [], length, IfOk};
ghost use Rattle.elan_phrases.specs.Input.{Reads};
ghost use Rattle.elan_syntax.specs.Grammar as grammar;

use crate::parts::ClauseOutline;
use elan_phrases::{Halt, Reader, Symbol, SymbolSet, pushed, some_strategy, text};
use sqlite_items::Items;
use std::alloc::Global;

/// Takes each clause.
#[tactic(auto, using(crate::proofs::Turns::more_clauses_reads))]
pub fn more_clauses(alloc: Global, reader: &mut Reader<'_>) -> Result<Items<ClauseOutline>, Halt>
    ensures read { Reads (grammar.more_clauses []) reader.old result reader.new }
    ensures no_longer { IfOk result (λ _. length reader.new.rest ≤ length reader.old.rest) }
{
    let mut found = Items::new(alloc);
    'clauses: while reader.sees_any(SymbolSet::BeginsClause) {
        let next = clause(alloc, reader)?;
        found = pushed(found, next)?;
    }
    Ok(found)
}

/// Takes a clause.
#[tactic(auto, unfolding(crate::specs::Grammar::clause_rule, crate::specs::Grammar::where_clause))]
fn clause(alloc: Global, reader: &mut Reader<'_>) -> Result<ClauseOutline, Halt>
    ensures read { Reads grammar.clause_rule reader.old result reader.new }
    ensures shorter { IfOk result (λ _. length reader.new.rest < length reader.old.rest) }
{
    if reader.sees(Symbol::Where) {
        where_clause(alloc, reader)
    } else {
        if_clause(reader)
    }
}

/// Takes a clause that begins with `where`.
#[tactic(auto, unfolding(crate::specs::Grammar::where_clause))]
fn where_clause(alloc: Global, reader: &mut Reader<'_>) -> Result<ClauseOutline, Halt>
    ensures read { Reads grammar.where_clause reader.old result reader.new }
    ensures shorter { IfOk result (λ _. length reader.new.rest < length reader.old.rest) }
{
    reader.sign(Symbol::Where)?;
    let left = text(reader)?;
    reader.sign(Symbol::Becomes)?;
    reader.sign(Symbol::LeftRound)?;
    let by = some_strategy(alloc, reader)?;
    reader.sign(Symbol::RightRound)?;
    let of = text(reader)?;
    Ok(ClauseOutline::Where { left, by, of })
}

/// Takes a clause that begins with `if`.
#[tactic(auto, unfolding(crate::specs::Grammar::if_clause))]
fn if_clause(reader: &mut Reader<'_>) -> Result<ClauseOutline, Halt>
    ensures read { Reads grammar.if_clause reader.old result reader.new }
    ensures shorter { IfOk result (λ _. length reader.new.rest < length reader.old.rest) }
{
    reader.sign(Symbol::If)?;
    let condition = text(reader)?;
    Ok(ClauseOutline::If(condition))
}
