//! The edge rule at worked operators.

use elan_program::{Assoc, Operator, Piece};
use elan_reading::laws::{operands_follow_the_side, readings_have_their_sort};
use elan_reading::{Position, Side, counted, fits, is_injection, side_of, tie};
use elan_terms::SortId;
use elan_text::{Name, NoMemory};
use sqlite_items::Items;
use std::alloc::Global;
use std::test::Fail;

/// What an operator of the table says of itself.
#[derive(Clone, Copy)]
enum Form {
    /// `@ ^ @`
    Infix,
    /// `- @`
    Prefix,
    /// `p ( @ )`
    Call,
    /// `@`
    Injection,
}

fn word_onto(alloc: Global, pieces: &mut Items<Piece>, word: &[u8]) -> Result<(), NoMemory> {
    pieces.push(Piece::Word(Name::new(alloc, word)?))?;
    Ok(())
}

fn pieces(alloc: Global, form: Form) -> Result<Items<Piece>, NoMemory> {
    let mut pieces = Items::new(alloc);
    match form {
        Form::Infix => {
            pieces.push(Piece::Hole)?;
            word_onto(alloc, &mut pieces, b"^")?;
            pieces.push(Piece::Hole)?;
        }
        Form::Prefix => {
            word_onto(alloc, &mut pieces, b"-")?;
            pieces.push(Piece::Hole)?;
        }
        Form::Call => {
            word_onto(alloc, &mut pieces, b"(")?;
            pieces.push(Piece::Hole)?;
            word_onto(alloc, &mut pieces, b")")?;
        }
        Form::Injection => pieces.push(Piece::Hole)?,
    }
    Ok(pieces)
}

fn operator(
    alloc: Global,
    form: Form,
    pri: u8,
    assoc: Assoc,
    ac: bool,
) -> Result<Operator, NoMemory> {
    Ok(Operator {
        pieces: pieces(alloc, form)?,
        args: Items::from_slice(alloc, &[SortId(0)])?,
        sort: SortId(0),
        pri,
        assoc,
        ac,
        builtin: None,
    })
}

/// Whether an argument headed by the second operator stands ungrouped on the left and on the right of the first.
fn on_both(outer: &Operator, inner: &Operator) -> (bool, bool) {
    (
        fits(outer, Side::Left, tie(inner)),
        fits(outer, Side::Right, tie(inner)),
    )
}

/// An infix operator of priority 2 of this associativity, another operator, and where that may stand in the first one.
type Row = (Assoc, bool, Form, u8, (bool, bool));

fn is_as_said(alloc: Global, row: &Row) -> Result<bool, NoMemory> {
    let outer = operator(alloc, Form::Infix, 2, row.0, row.1)?;
    let inner = operator(alloc, row.2, row.3, row.0, row.1)?;
    Ok(on_both(&outer, &inner) == row.4 && fits(&outer, Side::Inner, tie(&inner)))
}

#[test]
fn an_argument_stands_where_the_edge_rule_lets_it(rt: HostRuntime) -> Result<(), Fail> {
    let alloc = rt.alloc();
    let rows: [Row; 11] = [
        // `1 ^ 2 ^ 3`: to the right, to the left, and not at all.
        (Assoc::Right, false, Form::Infix, 2, (false, true)),
        (Assoc::Left, false, Form::Infix, 2, (true, false)),
        (Assoc::No, false, Form::Infix, 2, (false, false)),
        // An associative and commutative operator without associativity counts as `assocLeft`.
        (Assoc::No, true, Form::Infix, 2, (true, false)),
        (Assoc::Right, true, Form::Infix, 2, (false, true)),
        // The priority decides first.
        (Assoc::Right, false, Form::Infix, 3, (true, true)),
        (Assoc::Right, false, Form::Infix, 1, (false, false)),
        // One open end is enough to be open.
        (Assoc::Left, false, Form::Prefix, 2, (true, false)),
        (Assoc::Left, false, Form::Prefix, 1, (false, false)),
        // What is not open stands everywhere, and so does an injection, which is looked through.
        (Assoc::No, false, Form::Call, 0, (true, true)),
        (Assoc::No, false, Form::Injection, 0, (true, true)),
    ];
    for row in &rows {
        assert!(rt; is_as_said(alloc, row)?);
    }
    Ok(())
}

#[test]
fn a_spelling_of_one_hole_is_an_injection(rt: HostRuntime) -> Result<(), Fail> {
    let alloc = rt.alloc();
    let forms = [
        (Form::Infix, false),
        (Form::Prefix, false),
        (Form::Call, false),
        (Form::Injection, true),
    ];
    for row in &forms {
        let made = operator(alloc, row.0, 1, Assoc::No, true)?;
        assert_eq!(rt; is_injection(&made), row.1);
        assert_eq!(rt; counted(&made), Assoc::Left);
    }
    Ok(())
}

#[test]
fn a_hole_stands_on_a_side_of_its_spelling(rt: HostRuntime) -> Result<(), Fail> {
    let alloc = rt.alloc();
    let pieces = pieces(alloc, Form::Infix)?;
    assert_eq!(rt; side_of(Position::First, pieces.as_slice()), Side::Left);
    assert_eq!(rt; side_of(Position::Later, pieces.as_slice()), Side::Inner);
    assert_eq!(rt; side_of(Position::Later, &[]), Side::Right);
    Ok(())
}

#[test]
fn a_law_does_nothing() {
    readings_have_their_sort();
    operands_follow_the_side();
}
