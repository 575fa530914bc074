//! What stands before, between and behind the arguments of a spelling.

ghost use Rattle.std.specs.Prelude.{◌≡◌};
ghost use Rattle.elan_print.specs.Sides as spec;
ghost use Rattle.elan_print.specs.Pages.{sheet, Puts};

use crate::page::{Page, spelled_onto};
use elan_program::Piece;
use elan_reading::Side;
use elan_text::NoMemory;

/// The words before the first hole.
pub(crate) fn before_onto(page: &mut Page, pieces: &[Piece]) -> Result<(), NoMemory>
    ensures { Puts result page.old page.new (spec.before pieces.now) }
{
    let mut left = pieces;
    'pieces: while let [piece, rest @ ..] = left {
        match piece {
            Piece::Hole => return Ok(()),
            Piece::Word(name) => spelled_onto(page, name.as_bytes())?,
        }
        left = rest;
    }
    Ok(())
}

/// The words before the first hole, so many times.
#[tactic(auto, using(crate::proofs::Writing::puts))]
pub(crate) fn times_onto(page: &mut Page, pieces: &[Piece], count: usize) -> Result<(), NoMemory>
    ensures { Puts result page.old page.new (spec.repeated (spec.before pieces.now) count) }
{
    for turn in 0..count {
        before_onto(page, pieces)?;
    }
    Ok(())
}

/// The pieces behind the first hole.
pub(crate) fn behind(pieces: &[Piece]) -> &[Piece]
    ensures { result.now ≡ spec.behind pieces.now }
{
    let mut left = pieces;
    'pieces: while let [piece, rest @ ..] = left {
        match piece {
            Piece::Hole => return rest,
            Piece::Word(_) => left = rest,
        }
    }
    left
}

/// The side of the first hole of a spelling that has another hole.
pub(crate) fn first_side(pieces: &[Piece]) -> Side
    ensures { result ≡ spec.first_side pieces.now }
{
    match pieces {
        [] => Side::Inner,
        [first, ..] => match first {
            Piece::Hole => Side::Left,
            Piece::Word(_) => Side::Inner,
        },
    }
}
