//! Terms and patterns in letters, each operator behind its arguments.
//!
//! Of the first sort are the constants `a` to `x`, the associative and commutative `U` and `P`, `F` of one argument, `G` of
//! two, and `I`, which makes such a term of one of the second sort. Of the second sort are the constants `y` and `z`, and
//! the associative and commutative `V`. Capital `X`, `Y` and `Z` are variables of the first sort, `K` and `L` of the
//! second. An operator has as many arguments as the number in front of it says; `U`, `P`, `V` and `G` have two and the
//! others one where there is no number.
ghost use Rattle.std.specs.Prelude.{IsTrue};
ghost use Rattle.elan_match.specs.Plain.{AreNumbered};

use elan_table::{Blank, Name, NoMemory, Table, TermRef};
use elan_terms::{OpId, Pattern, PatternNode, Shape, Shapes, SortId, Term, TermNode};
use sqlite_items::Items;
use std::alloc::{AllocError, Global};
use std::sync::Wait;

const FIRST: SortId = SortId(0);

const SECOND: SortId = SortId(1);

fn shape(alloc: Global, args: &[SortId], sort: SortId, ac: bool) -> Result<Shape, NoMemory> {
    Ok(Shape {
        args: Items::from_slice(alloc, args)?,
        sort,
        ac,
    })
}

/// The operators, in the order of the letters `abcdefghijklmnopqrstuvwxUPFGIyzV`.
pub fn blank(alloc: Global) -> Result<Blank, NoMemory> {
    let mut shapes = Items::new(alloc);
    for _ in 0..24 {
        shapes.push(shape(alloc, &[], FIRST, false)?)?;
    }
    let rest: [(&[SortId], SortId, bool); 8] = [
        (&[FIRST, FIRST], FIRST, true),
        (&[FIRST, FIRST], FIRST, true),
        (&[FIRST], FIRST, false),
        (&[FIRST, FIRST], FIRST, false),
        (&[SECOND], FIRST, false),
        (&[], SECOND, false),
        (&[], SECOND, false),
        (&[SECOND, SECOND], SECOND, true),
    ];
    for (args, sort, ac) in rest {
        shapes.push(shape(alloc, args, sort, ac)?)?;
    }
    Ok(Blank::new(Shapes { shapes, int: None }))
}

/// The number of an operator, and how many arguments it has where nothing else is said.
fn operator(letter: u8) -> (u32, usize) {
    match letter {
        b'U' => (24, 2),
        b'P' => (25, 2),
        b'F' => (26, 1),
        b'G' => (27, 2),
        b'I' => (28, 1),
        b'y' => (29, 0),
        b'z' => (30, 0),
        b'V' => (31, 2),
        other => (u32::from(other.saturating_sub(b'a')), 0),
    }
}

/// The number so far with one more digit.
fn with_digit(count: Option<usize>, digit: u8) -> Option<usize> {
    let low = usize::from(digit.saturating_sub(b'0'));
    Some(count.unwrap_or(0).saturating_mul(10).saturating_add(low))
}

/// The last items, so many, in their order.
fn taken<T: Drop>(alloc: Global, items: &mut Vec<T>, many: usize) -> Result<Items<T>, NoMemory> {
    let from = items.len().saturating_sub(many);
    let mut out = Items::new(alloc);
    for item in items.split_off(from)? {
        out.push(item)?;
    }
    Ok(out)
}

/// A row of the application; one that the table does not take is an error as well.
fn node<N: Name, R: Wait>(
    rt: &R,
    table: &Table<N>,
    op: OpId,
    args: &[TermRef<N>],
) -> Result<TermRef<N>, NoMemory> {
    if table.takes(op, args) {
        table.intern(rt, op, args)
    } else {
        Err(AllocError)
    }
}

/// A row of the term in letters.
pub fn row<N: Name, R: Wait>(
    rt: &R,
    alloc: Global,
    table: &Table<N>,
    letters: &[u8],
) -> Result<TermRef<N>, NoMemory> {
    let mut rows = Vec::new(alloc);
    let mut count = None;
    for letter in letters {
        if letter.is_ascii_digit() {
            count = with_digit(count, *letter);
        } else {
            let (op, many) = operator(*letter);
            let args = taken(alloc, &mut rows, count.unwrap_or(many))?;
            rows.push(node(rt, table, OpId(op), args.as_slice())?)?;
            count = None;
        }
    }
    rows.pop().ok_or(AllocError)
}

/// The sort of the variable that a letter stands for, if it stands for one.
fn sort_of(letter: u8) -> Option<SortId> {
    match letter {
        b'X' | b'Y' | b'Z' => Some(FIRST),
        b'K' | b'L' => Some(SECOND),
        _ => None,
    }
}

/// The number of a variable by where its letter stands first among those that were met.
fn number_of(letters: &mut Vec<u8>, letter: u8) -> Result<u32, NoMemory> {
    for (place, met) in letters.as_slice().iter().enumerate() {
        if *met == letter {
            return u32::try_from(place).map_err(|_| AllocError);
        }
    }
    let place = letters.len();
    letters.push(letter)?;
    u32::try_from(place).map_err(|_| AllocError)
}

/// The pattern in letters. Its variables are numbered in the order in which they stand there first.
pub fn pattern(alloc: Global, letters: &[u8]) -> Result<Pattern, NoMemory> {
    let mut patterns = Vec::new(alloc);
    let mut met = Vec::new(alloc);
    let mut count = None;
    for letter in letters {
        if letter.is_ascii_digit() {
            count = with_digit(count, *letter);
            continue;
        }
        let node = match sort_of(*letter) {
            Some(sort) => PatternNode::Var(number_of(&mut met, *letter)?, sort),
            None => {
                let (op, many) = operator(*letter);
                let args = taken(alloc, &mut patterns, count.unwrap_or(many))?;
                PatternNode::App(OpId(op), args)
            }
        };
        patterns.push(Pattern { node })?;
        count = None;
    }
    patterns.pop().ok_or(AllocError)
}

/// Whether variables are numbered one after the other, from this number on.
pub fn are_numbered(first: u32, variables: &[(u32, SortId)]) -> bool
    ensures { IsTrue result → AreNumbered first variables.now }
{
    match variables {
        [] => true,
        [variable, rest @ ..] => {
            variable.0 == first && first < u32::MAX && are_numbered(first + 1, rest)
        }
    }
}

/// The brackets around the arguments of an operator, or its letter.
fn marks(op: u32) -> (char, Option<char>) {
    match op {
        24 => ('(', Some(')')),
        25 => ('[', Some(']')),
        26 => ('F', None),
        27 => ('G', None),
        28 => ('I', None),
        29 => ('y', None),
        30 => ('z', None),
        31 => ('{', Some('}')),
        other => {
            let place = u8::try_from(other).unwrap_or(25);
            (char::from(b'a'.saturating_add(place)), None)
        }
    }
}

/// Puts a term to the end: `U` over arguments as `(..)`, `P` as `[..]`, `V` as `{..}`, and each other operator as its
/// letter in front of its arguments.
pub fn spell_onto(text: &mut String, term: &Term) -> Result<(), NoMemory> {
    let TermNode::App(op, args) = &term.node else {
        return Ok(());
    };
    let (open, close) = marks(op.0);
    text.push(open)?;
    for arg in args.as_slice() {
        spell_onto(text, arg)?;
    }
    match close {
        None => Ok(()),
        Some(mark) => text.push(mark),
    }
}

/// Puts the terms of rows to the end, with a comma between them and a space behind.
pub fn values_onto<N: Name>(
    table: &Table<N>,
    text: &mut String,
    values: &[TermRef<N>],
) -> Result<(), NoMemory> {
    let mut is_first = true;
    for value in values {
        if !is_first {
            text.push(',')?;
        }
        is_first = false;
        spell_onto(text, &table.to_owned(value)?)?;
    }
    text.push(' ')
}
