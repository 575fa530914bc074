//! The tokens of a term, written from left to right.

ghost use Rattle.std.specs.Prelude.{◌≡◌, ◌≤◌, ◌∷◌, true, Some, map, OnOk, IfOk};
ghost use Rattle.std.specs.String.{string_bytes};
ghost use Rattle.elan_terms.specs.Weight.{weights};
ghost use Rattle.elan_terms.specs.Valid.{IsValid};
ghost use Rattle.elan_program.specs.Signature.{shapes_of};
ghost use Rattle.elan_program.specs.Soundness.{is_sound};
ghost use Rattle.elan_reading.specs.declared.edge.Position.TheVariants as place;
ghost use Rattle.elan_print.specs.Terms as terms_spec;
ghost use Rattle.elan_print.specs.Terms.{shown_of};
ghost use Rattle.elan_print.specs.Sides as spec;
ghost use Rattle.elan_print.specs.Pages.{sheet, Puts};

use crate::page::{Page, closing_onto, integer_onto, opening_onto, spelled_onto};
use crate::spelling::{before_onto, behind, first_side, times_onto};
use elan_program::{Assoc, Operator, Piece, Signature};
use elan_reading::{Position, Side, counted, fits, is_injection, side_of, tie};
use elan_terms::{Term, TermNode};
use elan_text::NoMemory;
use std::alloc::Global;

/// The priority that decides where a term may stand ungrouped; none where it may stand everywhere.
#[cycle(tie)]
#[tactic(auto, using(crate::proofs::Writing::ties, elan_terms::proofs::WeightLemmas::falls))]
fn tie_in(signature: &Signature, term: &Term) -> Option<u8>
    requires { is_sound signature.now ≡ true }
    ensures { result ≡ spec.tie_in signature.now term.now }
{
    match &term.node {
        TermNode::Int(_) => None,
        TermNode::App(op, args) => match signature.operators.get(op.0 as usize) {
            None => None,
            Some(operator) => {
                if is_injection(operator) {
                    tie_inside(signature, operator, args.as_slice())
                } else {
                    tie(operator)
                }
            }
        },
    }
}

/// The same of an injection over these arguments.
#[cycle(tie)]
#[tactic(auto, using(crate::proofs::Writing::ties, elan_terms::proofs::WeightLemmas::falls))]
fn tie_inside(signature: &Signature, operator: &Operator, args: &[Term]) -> Option<u8>
    requires { is_sound signature.now ≡ true }
    ensures { result ≡ spec.tie_inside signature.now operator.now args.now }
{
    match args {
        [] => tie(operator),
        [first, ..] => tie_in(signature, first),
    }
}

/// A term.
#[cycle(term)]
#[tactic(auto, using(crate::proofs::Writing::terms, elan_terms::proofs::WeightLemmas::falls))]
pub(crate) fn term_onto(page: &mut Page, signature: &Signature, term: &Term) -> Result<(), NoMemory>
    requires { is_sound signature.now ≡ true }
    ensures { Puts result page.old page.new (terms_spec.term_tokens signature.now term.now) }
{
    match &term.node {
        TermNode::Int(value) => integer_onto(page, *value),
        TermNode::App(op, args) => match signature.operators.get(op.0 as usize) {
            None => Ok(()),
            Some(operator) => applied_onto(page, signature, operator, args.as_slice()),
        },
    }
}

/// An argument on a side of an operator, which is grouped where it may not stand as it is.
#[cycle(term)]
#[tactic(auto, using(crate::proofs::Writing::grouped, elan_terms::proofs::WeightLemmas::falls))]
fn argument_onto(
    page: &mut Page,
    signature: &Signature,
    operator: &Operator,
    side: Side,
    term: &Term,
) -> Result<(), NoMemory>
    requires { is_sound signature.now ≡ true }
    ensures { Puts result page.old page.new
        (terms_spec.argument operator.now side (shown_of signature.now term.now)) }
{
    if fits(operator, side, tie_in(signature, term)) {
        term_onto(page, signature, term)
    } else {
        opening_onto(page)?;
        term_onto(page, signature, term)?;
        closing_onto(page)
    }
}

/// A piece, and the argument in it where it is a hole; the arguments that are left.
#[cycle(term)]
#[tactic(auto, using(crate::proofs::Writing::puts, elan_terms::proofs::WeightLemmas::falls))]
fn piece_onto<'a>(
    page: &mut Page,
    signature: &Signature,
    operator: &Operator,
    position: Position,
    piece: &Piece,
    rest: &[Piece],
    args: &'a [Term],
) -> Result<&'a [Term], NoMemory>
    requires { is_sound signature.now ≡ true }
    ensures written { IfOk result (λ more.
        spec.put_all (sheet page.new)
        (terms_spec.filled operator.now place.Later rest.now (map (shown_of signature.now) more.now))
        ≡ spec.put_all (sheet page.old)
        (terms_spec.filled operator.now position (piece.now ∷ rest.now)
        (map (shown_of signature.now) args.now))) }
    ensures fewer { IfOk result (λ more. weights more.now ≤ weights args.now) }
{
    match piece {
        Piece::Word(name) => {
            spelled_onto(page, name.as_bytes())?;
            Ok(args)
        }
        Piece::Hole => match args {
            [] => Ok(args),
            [term, more @ ..] => {
                argument_onto(page, signature, operator, side_of(position, rest), term)?;
                Ok(more)
            }
        },
    }
}

/// A spelling with the arguments in its holes.
#[cycle(term)]
#[tactic(auto, using(crate::proofs::Writing::puts))]
fn filled_onto(
    page: &mut Page,
    signature: &Signature,
    operator: &Operator,
    args: &[Term],
) -> Result<(), NoMemory>
    requires { is_sound signature.now ≡ true }
    ensures { Puts result page.old page.new
        (terms_spec.filled operator.now place.First operator.now.pieces
        (map (shown_of signature.now) args.now)) }
{
    let mut pieces = operator.pieces.as_slice();
    let mut left = args;
    let mut position = Position::First;
    'pieces: while let [piece, rest @ ..] = pieces {
        left = piece_onto(page, signature, operator, position, piece, rest, left)?;
        position = Position::Later;
        pieces = rest;
    }
    Ok(())
}

/// An injection as its argument, and each other operator by its spelling.
#[cycle(term)]
#[tactic(auto, using(elan_terms::proofs::WeightLemmas::falls), unfolding(crate::specs::Terms::term_tokens))]
fn plain_onto(
    page: &mut Page,
    signature: &Signature,
    operator: &Operator,
    args: &[Term],
) -> Result<(), NoMemory>
    requires { is_sound signature.now ≡ true }
    ensures { Puts result page.old page.new
        (terms_spec.applied (Some operator.now) (map (shown_of signature.now) args.now)) }
{
    if is_injection(operator) {
        match args {
            [] => Ok(()),
            [first, ..] => term_onto(page, signature, first),
        }
    } else {
        filled_onto(page, signature, operator, args)
    }
}

/// An argument behind those that are nested to the left.
#[cycle(term)]
#[tactic(auto, using(crate::proofs::Writing::puts, elan_terms::proofs::WeightLemmas::falls))]
fn closed_onto(
    page: &mut Page,
    signature: &Signature,
    operator: &Operator,
    term: &Term,
) -> Result<(), NoMemory>
    requires { is_sound signature.now ≡ true }
    ensures { Puts result page.old page.new
        (spec.closed operator.now (shown_of signature.now term.now)) }
{
    let middle = behind(operator.pieces.as_slice());
    let end = behind(middle);
    before_onto(page, middle)?;
    argument_onto(
        page,
        signature,
        operator,
        side_of(Position::Later, end),
        term,
    )?;
    before_onto(page, end)
}

/// Nodes that are nested to the left.
#[cycle(term)]
#[tactic(auto, using(crate::proofs::Writing::puts, elan_terms::proofs::WeightLemmas::falls))]
fn left_onto(
    page: &mut Page,
    signature: &Signature,
    operator: &Operator,
    first: &Term,
    rest: &[Term],
) -> Result<(), NoMemory>
    requires { is_sound signature.now ≡ true }
    ensures { Puts result page.old page.new
        (spec.left_tokens operator.now (shown_of signature.now first.now)
        (map (shown_of signature.now) rest.now)) }
{
    let pieces = operator.pieces.as_slice();
    times_onto(page, pieces, rest.len())?;
    argument_onto(page, signature, operator, first_side(pieces), first)?;
    'terms: for term in rest {
        closed_onto(page, signature, operator, term)?;
    }
    Ok(())
}

/// An argument before those that are nested to the right.
#[cycle(term)]
#[tactic(auto, using(crate::proofs::Writing::puts, elan_terms::proofs::WeightLemmas::falls))]
fn opened_onto(
    page: &mut Page,
    signature: &Signature,
    operator: &Operator,
    term: &Term,
) -> Result<(), NoMemory>
    requires { is_sound signature.now ≡ true }
    ensures { Puts result page.old page.new
        (spec.opened operator.now (shown_of signature.now term.now)) }
{
    let pieces = operator.pieces.as_slice();
    before_onto(page, pieces)?;
    argument_onto(page, signature, operator, first_side(pieces), term)?;
    before_onto(page, behind(pieces))
}

/// Nodes that are nested to the right.
#[cycle(term)]
#[tactic(auto, using(crate::proofs::Writing::puts, elan_terms::proofs::WeightLemmas::falls))]
fn right_onto(
    page: &mut Page,
    signature: &Signature,
    operator: &Operator,
    first: &Term,
    rest: &[Term],
) -> Result<(), NoMemory>
    requires { is_sound signature.now ≡ true }
    ensures { Puts result page.old page.new
        (spec.right_tokens operator.now (shown_of signature.now first.now)
        (map (shown_of signature.now) rest.now)) }
{
    let mut term = first;
    'terms: for next in rest {
        opened_onto(page, signature, operator, term)?;
        term = next;
    }
    let end = behind(behind(operator.pieces.as_slice()));
    argument_onto(
        page,
        signature,
        operator,
        side_of(Position::Later, end),
        term,
    )?;
    times_onto(page, end, rest.len())
}

/// An application: an associative and commutative operator over two or more arguments as nested
/// nodes of two.
#[cycle(term)]
fn applied_onto(
    page: &mut Page,
    signature: &Signature,
    operator: &Operator,
    args: &[Term],
) -> Result<(), NoMemory>
    requires { is_sound signature.now ≡ true }
    ensures { Puts result page.old page.new
        (spec.applied_tokens operator.now (map (shown_of signature.now) args.now)) }
{
    match args {
        [] => plain_onto(page, signature, operator, args),
        [first, rest @ ..] => match rest {
            [] => plain_onto(page, signature, operator, args),
            [_, ..] => {
                if operator.ac {
                    match counted(operator) {
                        Assoc::Right => right_onto(page, signature, operator, first, rest),
                        Assoc::Left => left_onto(page, signature, operator, first, rest),
                        Assoc::No => left_onto(page, signature, operator, first, rest),
                    }
                } else {
                    plain_onto(page, signature, operator, args)
                }
            }
        },
    }
}

/// The printed form of a valid term of a sound signature: its tokens with the spaces between them.
///
/// An integer is its decimal digits with `-` before them where it is negative, an injection its
/// argument, and another application its spelling with the arguments in the holes. An argument that
/// could not be read ungrouped stands in parentheses. The time is linear in the text, the term and
/// the spellings of its operators.
#[tactic(auto, using(crate::proofs::Writing::texts))]
pub fn term_text(alloc: Global, signature: &Signature, term: &Term) -> Result<String, NoMemory>
    requires sound { is_sound signature.now ≡ true }
    requires valid { IsValid (shapes_of signature.now) term.now }
    ensures { IfOk result (λ text.
        string_bytes text ≡ terms_spec.term_text signature.now term.now) }
{
    let mut page = Page {
        text: Vec::new(alloc),
        tight: true,
    };
    term_onto(&mut page, signature, term)?;
    match String::from_utf8(page.text) {
        Ok(text) => Ok(text),
        Err(_) => unreachable!(),
    }
}
