//! Terms and shapes of the tests. A term is spelled with each operator behind its arguments.

use elan_terms::{NoMemory, OpId, Shape, Shapes, SortId, Term, TermNode};
use sqlite_items::Items;
use std::alloc::Global;

/// So many arguments of the first sort.
fn shape(alloc: Global, many: usize, ac: bool) -> Result<Shape, NoMemory> {
    let mut args = Items::new(alloc);
    for _ in 0..many {
        args.push(SortId(0))?;
    }
    Ok(Shape {
        args,
        sort: SortId(0),
        ac,
    })
}

/// a, b and c are the constants 0, 1 and 2; 3 is the associative and commutative U, and 4 makes a set of an integer.
pub(crate) fn sets(alloc: Global) -> Result<Shapes, NoMemory> {
    let mut shapes = Items::new(alloc);
    for _ in 0..3 {
        shapes.push(shape(alloc, 0, false)?)?;
    }
    shapes.push(shape(alloc, 2, true)?)?;
    shapes.push(Shape {
        args: Items::from_slice(alloc, &[SortId(1)])?,
        sort: SortId(0),
        ac: false,
    })?;
    Ok(Shapes {
        shapes,
        int: Some(SortId(1)),
    })
}

/// The operator and the number of its arguments that a letter stands for.
fn operator(letter: u8) -> (u32, usize) {
    match letter {
        b'a' => (0, 0),
        b'b' => (1, 0),
        b'c' => (2, 0),
        b'1' => (3, 1),
        b'2' => (3, 2),
        b'3' => (3, 3),
        b'4' => (3, 4),
        b's' => (4, 1),
        b'e' => (4, 0),
        b'f' => (0, 1),
        _ => (5, 0),
    }
}

/// The last terms, so many, in their order.
fn taken(alloc: Global, terms: &mut Vec<Term>, many: usize) -> Result<Items<Term>, NoMemory> {
    let from = terms.len().saturating_sub(many);
    let mut args = Items::new(alloc);
    for term in terms.split_off(from)? {
        args.push(term)?;
    }
    Ok(args)
}

/// A term in letters: `a`, `b` and `c` are the constants, `1` to `4` make a U of the last so many terms, `s` a set of the
/// last one, `n` is the integer 7, `g` the least integer and `m` the one before it. Wrong are `e`, `s` without an
/// argument, `f`, `a` with one, and `z`, an operator that is not there.
pub(crate) fn term(alloc: Global, letters: &[u8]) -> Result<Term, NoMemory> {
    let mut terms = Vec::new(alloc);
    for letter in letters {
        let node = match *letter {
            b'n' => TermNode::Int(7),
            b'g' => TermNode::Int(-9_223_372_036_854_775_807),
            b'm' => TermNode::Int(i64::MIN),
            other => {
                let (op, many) = operator(other);
                TermNode::App(OpId(op), taken(alloc, &mut terms, many)?)
            }
        };
        terms.push(Term { node })?;
    }
    match terms.pop() {
        Some(term) => Ok(term),
        None => Ok(Term {
            node: TermNode::Int(0),
        }),
    }
}

/// Puts a term to the end: one character a constant, and those of a U joined.
pub(crate) fn spell_onto(text: &mut String, term: &Term) -> Result<(), NoMemory> {
    let TermNode::App(op, args) = &term.node else {
        return Ok(());
    };
    match op.0 {
        0 => text.push('a')?,
        1 => text.push('b')?,
        2 => text.push('c')?,
        _ => {}
    }
    for arg in args.as_slice() {
        spell_onto(text, arg)?;
    }
    Ok(())
}
