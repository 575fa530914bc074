//! Operators that are spelled as a name over arguments in parentheses.

ghost use Rattle.std.specs.Prelude.{◌≡◌, ◌≤◌, length, IfSome};
ghost use Rattle.std.specs.Option.{option_map};
ghost use Rattle.elan_names.specs.Names as spec;

use elan_program::{Operator, Piece};
use elan_text::Name;

/// Whether a word piece is this sign.
fn is_mark(sign: &[u8], mark: &Name) -> bool
    ensures { result ≡ spec.is_mark sign.now mark.now }
{
    mark.as_bytes() == sign
}

/// How many holes there are, where `,` stands between them and `)` behind them.
fn closing(pieces: &[Piece]) -> Option<usize>
    ensures { result ≡ spec.closing pieces.now }
{
    let mut count: usize = 0;
    let mut left = pieces;
    'holes: while let [Piece::Hole, Piece::Word(mark), rest @ ..] = left {
        count += 1;
        if rest.is_empty() {
            return if is_mark(b")", mark) {
                Some(count)
            } else {
                None
            };
        }
        if !is_mark(b",", mark) {
            return None;
        }
        left = rest;
    }
    None
}

/// The name of a spelling that is a name, `(`, holes with `,` between them, and `)`; and how many
/// holes there are.
fn prefix_of(pieces: &[Piece]) -> Option<(&[u8], usize)>
    ensures { option_map (λ p. (p.0.now, p.1)) result ≡ spec.prefix_of pieces.now }
{
    match pieces {
        [Piece::Word(name), Piece::Word(mark), rest @ ..] => {
            if !is_mark(b"(", mark) {
                return None;
            }
            match closing(rest) {
                None => None,
                Some(count) => Some((name.as_bytes(), count)),
            }
        }
        _ => None,
    }
}

/// The same of an operator, where it is not associative and commutative.
pub(crate) fn prefix_at(operator: &Operator) -> Option<(&[u8], usize)>
    ensures { option_map (λ p. (p.0.now, p.1)) result ≡ spec.prefix_at operator.now }
{
    if operator.ac {
        None
    } else {
        prefix_of(operator.pieces.as_slice())
    }
}
