//! A signature with spellings of each form, and its terms.

use elan_program::{Assoc, Operator, Piece, Signature};
use elan_terms::{NoMemory, OpId, SortId, Term, TermNode};
use elan_text::Name;
use sqlite_items::Items;
use std::alloc::Global;

/// A row of the signature: a spelling, the sorts of the arguments and of the result, the priority,
/// the associativity, and whether the operator is associative and commutative. The sorts are
/// 0 `int`, 1 `s` and 2 `t`.
type Row = (&'static [u8], &'static [u32], u32, u8, Assoc, bool);

const ROWS: [Row; 16] = [
    (b"a", &[], 1, 0, Assoc::No, false),
    (b"b", &[], 1, 0, Assoc::No, false),
    (b"c", &[], 1, 0, Assoc::No, false),
    (b"@ U @", &[1, 1], 1, 0, Assoc::Left, true),
    (b"@ V @", &[1, 1], 1, 5, Assoc::Right, true),
    (b"< @ @ >", &[1, 1], 1, 0, Assoc::No, true),
    (b"p ( @ , @ )", &[1, 1], 1, 0, Assoc::No, false),
    (b"[ @ ]", &[1], 1, 0, Assoc::No, false),
    (b"not ( @ )", &[1], 1, 0, Assoc::No, false),
    (b"@", &[0], 1, 0, Assoc::No, false),
    (b"@ ^ @", &[0, 0], 0, 0, Assoc::No, false),
    (b"@ + @", &[0, 0], 0, 50, Assoc::Left, false),
    (b"- @", &[0], 0, 70, Assoc::No, false),
    (b"@ # @", &[0, 2], 2, 30, Assoc::Right, false),
    (b"none", &[], 2, 0, Assoc::No, false),
    (b"( @ )", &[2], 2, 0, Assoc::No, false),
];

/// A node of a term, before its arguments.
#[derive(Clone, Copy)]
pub enum Step {
    Int(i64),
    /// An operator of the rows above, by number, and how many arguments it has.
    Over(u32, usize),
}

pub const A: Step = Step::Over(0, 0);

pub const B: Step = Step::Over(1, 0);

pub const C: Step = Step::Over(2, 0);

pub const UNION: u32 = 3;

pub const CHAIN: u32 = 4;

pub const ANGLES: u32 = 5;

pub const PAIR: u32 = 6;

pub const BRACKETS: u32 = 7;

pub const NOT: u32 = 8;

pub const OF_INT: u32 = 9;

pub const POWER: u32 = 10;

pub const PLUS: u32 = 11;

pub const MINUS: u32 = 12;

pub const BEFORE: u32 = 13;

pub const NONE: Step = Step::Over(14, 0);

pub const ROUND: u32 = 15;

fn pieces(alloc: Global, spelling: &[u8]) -> Result<Items<Piece>, NoMemory> {
    let mut pieces = Items::new(alloc);
    for word in spelling.split(|byte| *byte == b' ') {
        if word == b"@".as_slice() {
            pieces.push(Piece::Hole)?;
        } else {
            pieces.push(Piece::Word(Name::new(alloc, word)?))?;
        }
    }
    Ok(pieces)
}

fn sorts(alloc: Global, numbers: &[u32]) -> Result<Items<SortId>, NoMemory> {
    let mut sorts = Items::new(alloc);
    for number in numbers {
        sorts.push(SortId(*number))?;
    }
    Ok(sorts)
}

fn operator(alloc: Global, row: &Row) -> Result<Operator, NoMemory> {
    Ok(Operator {
        pieces: pieces(alloc, row.0)?,
        args: sorts(alloc, row.1)?,
        sort: SortId(row.2),
        pri: row.3,
        assoc: row.4,
        ac: row.5,
        builtin: None,
    })
}

/// The signature of the rows.
pub fn signature(alloc: Global) -> Result<Signature, NoMemory> {
    let mut operators = Items::new(alloc);
    for row in &ROWS {
        operators.push(operator(alloc, row)?)?;
    }
    let mut sorts = Items::new(alloc);
    sorts.push(Name::new(alloc, b"int")?)?;
    sorts.push(Name::new(alloc, b"s")?)?;
    sorts.push(Name::new(alloc, b"t")?)?;
    Ok(Signature {
        sorts,
        operators,
        int: Some(SortId(0)),
        truth: None,
    })
}

/// An operator over these arguments.
pub fn over(op: u32, args: Items<Term>) -> Term {
    Term {
        node: TermNode::App(OpId(op), args),
    }
}

/// An operator over so many of the terms that were put last, the last one first.
fn over_last(alloc: Global, terms: &mut Vec<Term>, op: u32, count: usize) -> Result<(), NoMemory> {
    let mut args = Items::new(alloc);
    for _ in 0..count {
        if let Some(term) = terms.pop() {
            args.push(term)?;
        }
    }
    terms.push(over(op, args))?;
    Ok(())
}

fn step_onto(alloc: Global, terms: &mut Vec<Term>, step: Step) -> Result<(), NoMemory> {
    match step {
        Step::Int(value) => {
            terms.push(Term {
                node: TermNode::Int(value),
            })?;
            Ok(())
        }
        Step::Over(op, count) => over_last(alloc, terms, op, count),
    }
}

/// The term of these nodes, each before its arguments; `None` where there is no node.
pub fn term(alloc: Global, steps: &[Step]) -> Result<Option<Term>, NoMemory> {
    let mut terms = Vec::new(alloc);
    for index in 0..steps.len() {
        step_onto(alloc, &mut terms, steps[steps.len() - 1 - index])?;
    }
    Ok(terms.pop())
}
