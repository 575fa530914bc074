//! The operators of a signature, as a text needs them: those whose words it has, and the injections
//! from each sort.

ghost use Rattle.std.specs.Prelude.{◌≡◌, ◌<◌, ◌+◌, ◌^◌, ◌++◌, IfOk, length};
ghost use Rattle.std.specs.List.{list_all, list_any};
ghost use Rattle.std.specs.Str.{bytes_eq};
ghost use Rattle.elan_entries.specs.Pieces as pieces;
ghost use Rattle.elan_chart.specs.Chart as spec;

use elan_entries::found::{Entry, Found, Key};
use elan_entries::lexemes::is_same;
use elan_entries::pieces::{last_sort, source};
use elan_program::{Operator, Piece};
use elan_reading::Lexeme;
use elan_terms::{OpId, SortId};
use elan_text::{Name, NoMemory};
use sqlite_items::Items;
use std::alloc::Global;
use std::mem;

/// Whether a word is one of the tokens.
fn is_among(word: &[u8], tokens: &[Lexeme]) -> bool
    ensures { result ≡ list_any (λ t. bytes_eq word.now t.text) tokens.now }
{
    for token in tokens {
        if is_same(word, token.text.as_slice()) {
            return true;
        }
    }
    false
}

/// Whether a piece is a hole, or the word of one of the tokens.
fn occurs(tokens: &[Lexeme], piece: &Piece) -> bool
    ensures { result ≡ spec.occurs tokens.now piece.now }
{
    match piece {
        Piece::Hole => true,
        Piece::Word(name) => is_among(name.as_bytes(), tokens),
    }
}

/// Whether each word of these pieces is among the tokens.
fn all_occur(tokens: &[Lexeme], pieces: &[Piece]) -> bool
    ensures { result ≡ list_all (spec.occurs tokens.now) pieces.now }
{
    for piece in pieces {
        if !occurs(tokens, piece) {
            return false;
        }
    }
    true
}

/// Puts an operator behind its last piece, where its words are among the tokens.
fn end_onto(
    alloc: Global,
    out: &mut Items<Entry>,
    tokens: &[Lexeme],
    op: OpId,
    operator: &Operator,
) -> Result<(), NoMemory>
    ensures { IfOk result (λ _. out.new ≡ out.old ++ spec.end_of tokens.now op operator.now) }
{
    if all_occur(tokens, operator.pieces.as_slice()) {
        out.push(Entry {
            key: Key::Rest(op, operator.pieces.len(), operator.args.len()),
            found: Found::One(Items::new(alloc)),
        })
    } else {
        Ok(())
    }
}

/// Puts the operators whose words are among the tokens, each behind its last piece.
pub(crate) fn ends_onto(
    alloc: Global,
    out: &mut Items<Entry>,
    tokens: &[Lexeme],
    number: u32,
    operators: &[Operator],
) -> Result<(), NoMemory>
    requires { number + length operators.now < 2 ^ 32 }
    ensures { IfOk result (λ _. out.new ≡ out.old ++ spec.ends tokens.now number operators.now) }
{
    let mut number = number;
    'operators: for operator in operators {
        end_onto(alloc, out, tokens, OpId(number), operator)?;
        number += 1;
    }
    Ok(())
}

/// An empty row for each sort.
pub(crate) fn blank(alloc: Global, sorts: &[Name]) -> Result<Vec<Items<OpId>>, NoMemory>
    ensures { IfOk result (λ v. v.items ≡ spec.blank sorts.now) }
{
    let mut table = Vec::new(alloc);
    for _sort in sorts {
        table.push(Items::new(alloc))?;
    }
    Ok(table)
}

/// Puts an operator to the end of a row.
fn add(alloc: Global, table: &mut Vec<Items<OpId>>, at: usize, op: OpId) -> Result<(), NoMemory>
    ensures { IfOk result (λ _. table.new.items ≡ spec.added table.old.items at op) }
{
    if at < table.len() {
        let mut row = mem::replace(&mut table[at], Items::new(alloc));
        row.push(op)?;
        table[at] = row;
    }
    Ok(())
}

/// Puts an operator to the row of a sort, where there is one.
fn add_at(
    alloc: Global,
    table: &mut Vec<Items<OpId>>,
    sort: Option<SortId>,
    op: OpId,
) -> Result<(), NoMemory>
    ensures { IfOk result (λ _. table.new.items ≡ spec.added_at table.old.items sort op) }
{
    match sort {
        None => Ok(()),
        Some(sort) => add(alloc, table, sort.0 as usize, op),
    }
}

/// Puts the injections to the rows of the sorts from which they lead.
pub(crate) fn injections_onto(
    alloc: Global,
    table: &mut Vec<Items<OpId>>,
    number: u32,
    operators: &[Operator],
) -> Result<(), NoMemory>
    requires { number + length operators.now < 2 ^ 32 }
    ensures { IfOk result (λ _. table.new.items ≡ spec.by_sort pieces.source table.old.items number
        operators.now) }
{
    let mut number = number;
    'operators: for operator in operators {
        add_at(alloc, table, source(operator), OpId(number))?;
        number += 1;
    }
    Ok(())
}

/// The sort of the last argument, where the last piece is a hole and the words of the spelling are
/// among the tokens.
fn last_in(tokens: &[Lexeme], operator: &Operator) -> Option<SortId>
    ensures { result ≡ spec.last_in tokens.now operator.now }
{
    if all_occur(tokens, operator.pieces.as_slice()) {
        last_sort(operator)
    } else {
        None
    }
}

/// Puts the operators that end with a hole, and whose words are among the tokens, to the rows of
/// the sorts of their last
/// arguments.
pub(crate) fn lasts_onto(
    alloc: Global,
    table: &mut Vec<Items<OpId>>,
    tokens: &[Lexeme],
    number: u32,
    operators: &[Operator],
) -> Result<(), NoMemory>
    requires { number + length operators.now < 2 ^ 32 }
    ensures { IfOk result (λ _. table.new.items ≡ spec.by_sort (spec.last_in tokens.now)
        table.old.items number operators.now) }
{
    let mut number = number;
    'operators: for operator in operators {
        add_at(alloc, table, last_in(tokens, operator), OpId(number))?;
        number += 1;
    }
    Ok(())
}
