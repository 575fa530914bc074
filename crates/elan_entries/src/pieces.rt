//! The pieces of a spelling by their places.

ghost use Rattle.std.specs.Prelude.{◌≡◌, ◌<◌, true};
ghost use Rattle.std.specs.Option.{option_copied};
ghost use Rattle.elan_entries.specs.Pieces as spec;

use crate::lexemes::is_same;
use elan_program::{Operator, Piece};
use elan_reading::{Lexeme, Side, fits, is_injection};
use elan_terms::SortId;

/// Whether there is a piece and it is a hole.
fn is_hole(piece: Option<&Piece>) -> bool
    ensures { result ≡ spec.is_hole_of (option_copied piece.entry) }
{
    match piece {
        Some(Piece::Hole) => true,
        _ => false,
    }
}

/// Whether there is a piece and it is the word of this token.
fn is_its_word(piece: Option<&Piece>, token: &Lexeme) -> bool
    ensures { result ≡ spec.is_its_word (option_copied piece.entry) token.now }
{
    match piece {
        Some(Piece::Word(name)) => is_same(name.as_bytes(), token.text.as_slice()),
        _ => false,
    }
}

/// Whether the piece at a place is a hole.
fn is_hole_at(operator: &Operator, at: usize) -> bool
    ensures { result ≡ spec.is_hole_at operator.now at }
{
    is_hole(operator.pieces.get(at))
}

/// Whether the piece at a place, counted from 0, is the word of a token. Past the last piece none
/// is.
pub fn is_word_at(operator: &Operator, at: usize, token: &Lexeme) -> bool
    ensures { result ≡ spec.is_word_at operator.now at token.now }
{
    is_its_word(operator.pieces.get(at), token)
}

/// Whether the argument at a place is of a sort.
fn is_arg_at(operator: &Operator, at: usize, sort: SortId) -> bool
    ensures { result ≡ spec.is_arg_at operator.now at sort }
{
    match operator.args.get(at) {
        Some(arg) => arg.0 == sort.0,
        None => false,
    }
}

/// Whether the piece at a place, counted from 0, may stand before a run that comes after this
/// token: it is a hole, or the token's word.
pub fn fits_before(operator: &Operator, at: usize, before: Option<&Lexeme>) -> bool
    ensures { result ≡ spec.fits_before operator.now at (option_copied before.entry) }
{
    is_hole_at(operator, at) || is_word_before(operator, at, before)
}

/// Whether a piece is the word of the token before, where there is one.
fn is_word_before(operator: &Operator, at: usize, before: Option<&Lexeme>) -> bool
    ensures { result ≡ spec.is_word_before operator.now at (option_copied before.entry) }
{
    match before {
        Some(token) => is_word_at(operator, at, token),
        None => false,
    }
}

/// Whether an operator is an injection whose argument is of this sort.
pub fn is_injection_from(operator: &Operator, sort: SortId) -> bool
    ensures { result ≡ spec.is_injection_from operator.now sort }
{
    is_injection(operator) && (operator.args.len() == 1 && is_arg_at(operator, 0, sort))
}

/// The side of the hole before this piece.
fn side_before(operator: &Operator, piece: usize) -> Side
    ensures { result ≡ spec.side_before operator.now piece }
{
    if piece == 1 {
        Side::Left
    } else if piece == operator.pieces.len() {
        Side::Right
    } else {
        Side::Inner
    }
}

/// Whether there is an argument before this one, and the piece before this one is a hole. Pieces
/// and arguments are counted from 0.
pub fn takes_hole(operator: &Operator, piece: usize, arg: usize) -> bool
    ensures exact { result ≡ spec.takes_hole operator.now piece arg }
    ensures pieces { result ≡ true → 0 < piece }
    ensures args { result ≡ true → 0 < arg }
{
    (0 < piece && 0 < arg) && is_hole_at(operator, piece - 1)
}

/// Whether the argument before this one is of this sort, and one with this priority at an edge may
/// stand before this piece. Pieces and arguments are counted from 0.
pub fn fits_arg(
    operator: &Operator,
    piece: usize,
    arg: usize,
    sort: SortId,
    tie: Option<u8>,
) -> bool
    requires { 0 < arg }
    ensures { result ≡ spec.fits_arg operator.now piece arg sort tie }
{
    is_arg_at(operator, arg - 1, sort) && fits(operator, side_before(operator, piece), tie)
}

/// The sort from which an injection leads; none for an operator that is no injection.
pub fn source(operator: &Operator) -> Option<SortId>
    ensures { result ≡ spec.source operator.now }
{
    if is_injection(operator) {
        operator.args.get(0).copied()
    } else {
        None
    }
}

/// The sort of the last argument, where the last piece is a hole and not the only piece.
pub fn last_sort(operator: &Operator) -> Option<SortId>
    ensures { result ≡ spec.last_sort operator.now }
{
    let pieces = operator.pieces.len();
    if 1 < pieces && is_hole_at(operator, pieces - 1) {
        operator
            .args
            .get(operator.args.len().saturating_sub(1))
            .copied()
    } else {
        None
    }
}
