//! Which operators are injections, which are open, and the rule on arguments at the edges of a spelling.

ghost use Rattle.std.specs.Prelude.{◌≡◌};
ghost use Rattle.elan_reading.specs.Edge as spec;

use elan_program::{Assoc, Operator, Piece};

/// Whether a piece is the first of its spelling.
#[derive(Clone, Copy, Debug, PartialEq, Eq)]
pub enum Position {
    First,
    Later,
}

/// Where a hole stands in a spelling of more than one piece.
#[derive(Clone, Copy, Debug, PartialEq, Eq)]
pub enum Side {
    /// It is the first piece.
    Left,
    /// It is neither the first piece nor the last.
    Inner,
    /// It is the last piece.
    Right,
}

fn is_hole(piece: &Piece) -> bool
    ensures { result ≡ spec.is_hole piece.now }
{
    match piece {
        Piece::Hole => true,
        Piece::Word(_) => false,
    }
}

fn is_one_hole(pieces: &[Piece]) -> bool
    ensures { result ≡ spec.is_one_hole pieces.now }
{
    match pieces {
        [piece] => is_hole(piece),
        _ => false,
    }
}

/// Whether the spelling is one hole.
pub fn is_injection(operator: &Operator) -> bool
    ensures { result ≡ spec.is_injection operator.now }
{
    is_one_hole(operator.pieces.as_slice())
}

/// Whether the last of these pieces is a hole.
fn ends_open(first: &Piece, rest: &[Piece]) -> bool
    ensures { result ≡ spec.ends_open first.now rest.now }
{
    match rest {
        [] => is_hole(first),
        [second, more @ ..] => ends_open(second, more),
    }
}

/// Whether the spelling has more than one piece and begins or ends with a hole.
fn is_open(operator: &Operator) -> bool
    ensures { result ≡ spec.is_open operator.now }
{
    match operator.pieces.as_slice() {
        [first, second, rest @ ..] => is_hole(first) || ends_open(second, rest),
        _ => false,
    }
}

/// The priority that decides at which edges an application of the operator may stand without parentheses; none where it
/// may stand at every one.
pub fn tie(operator: &Operator) -> Option<u8>
    ensures { result ≡ spec.own_tie operator.now }
{
    if is_open(operator) {
        Some(operator.pri)
    } else {
        None
    }
}

/// The associativity that counts: an associative and commutative operator without one counts as `assocLeft`.
pub fn counted(operator: &Operator) -> Assoc
    ensures { result ≡ spec.counted operator.now }
{
    match operator.assoc {
        Assoc::No => { if operator.ac { Assoc::Left } else { Assoc::No } }
        Assoc::Left => Assoc::Left,
        Assoc::Right => Assoc::Right,
    }
}

/// The side of a hole with this position, and with these pieces behind it.
pub fn side_of(position: Position, rest: &[Piece]) -> Side
    ensures { result ≡ spec.side_of position rest.now }
{
    match position {
        Position::First => Side::Left,
        Position::Later => match rest {
            [] => Side::Right,
            [_, ..] => Side::Inner,
        },
    }
}

/// Whether an operator may stand on this side of one of equal priority that has this associativity.
fn goes_on(assoc: Assoc, side: Side) -> bool
    ensures { result ≡ spec.goes_on assoc side }
{
    match side {
        Side::Left => matches!(assoc, Assoc::Left),
        Side::Inner => false,
        Side::Right => matches!(assoc, Assoc::Right),
    }
}

fn fits_at_edge(outer: &Operator, side: Side, pri: u8) -> bool
    ensures { result ≡ spec.fits_at_edge outer.now side pri }
{
    outer.pri < pri || (pri == outer.pri && goes_on(counted(outer), side))
}

/// The edge rule: whether an argument with this priority may stand without parentheses on this side of an operator.
pub fn fits(outer: &Operator, side: Side, tie: Option<u8>) -> bool
    ensures { result ≡ spec.fits outer.now side tie }
{
    match tie {
        None => true,
        Some(pri) => match side {
            Side::Inner => true,
            Side::Left | Side::Right => fits_at_edge(outer, side, pri),
        },
    }
}
