//! Printed terms.

use crate::sample::Step::{Int, Over};
use crate::sample::{
    A, ANGLES, B, BEFORE, BRACKETS, C, CHAIN, MINUS, NONE, NOT, OF_INT, PAIR, PLUS, POWER, ROUND,
    Step, UNION, over, signature, term,
};
use elan_print::laws::printed_terms_are_read;
use elan_print::term_text;
use elan_program::Signature;
use elan_terms::{NoMemory, OpId, Term, TermNode, is_valid};
use sqlite_items::Items;
use std::alloc::Global;
use std::test::Fail;

/// The text of a valid term of a sound signature, and else `None`.
fn printed(alloc: Global, signature: &Signature, term: &Term) -> Result<Option<String>, NoMemory> {
    let shapes = signature.shapes(alloc)?;
    let sound = signature.is_sound(alloc)?;
    if sound && is_valid(&shapes, term) {
        let text = term_text(alloc, signature, term)?;
        Ok(Some(text))
    } else {
        Ok(None)
    }
}

fn has_text(
    alloc: Global,
    signature: &Signature,
    term: &Term,
    text: &str,
) -> Result<bool, NoMemory> {
    match printed(alloc, signature, term)? {
        None => Ok(false),
        Some(found) => Ok(found.as_str() == text),
    }
}

/// The nodes of a term, and its text.
type Row = (&'static [Step], &'static str);

fn is_as_said(alloc: Global, signature: &Signature, row: &Row) -> Result<bool, NoMemory> {
    match term(alloc, row.0)? {
        None => Ok(false),
        Some(found) => has_text(alloc, signature, &found, row.1),
    }
}

const ROWS: [Row; 22] = [
    (&[Int(0)], "0"),
    (&[Int(-7)], "-7"),
    (&[Int(9223372036854775807)], "9223372036854775807"),
    (&[Int(-9223372036854775807)], "-9223372036854775807"),
    (&[NONE], "none"),
    // A prefix operator keeps its space, and an integer does not.
    (&[Over(MINUS, 1), Int(7)], "- 7"),
    (&[Over(MINUS, 1), Int(-7)], "- -7"),
    // No associativity: both sides are grouped.
    (
        &[Over(POWER, 2), Over(POWER, 2), Int(1), Int(2), Int(3)],
        "(1 ^ 2) ^ 3",
    ),
    (
        &[Over(POWER, 2), Int(1), Over(POWER, 2), Int(2), Int(3)],
        "1 ^ (2 ^ 3)",
    ),
    // To the left.
    (
        &[Over(PLUS, 2), Over(PLUS, 2), Int(1), Int(2), Int(-3)],
        "1 + 2 + -3",
    ),
    (
        &[Over(PLUS, 2), Int(1), Over(PLUS, 2), Int(2), Int(3)],
        "1 + (2 + 3)",
    ),
    // To the right.
    (
        &[Over(BEFORE, 2), Int(3), Over(BEFORE, 2), Int(1), NONE],
        "3 # 1 # none",
    ),
    // An injection is looked through: `^` has the priority of `U`, and `+` a greater one.
    (
        &[
            Over(UNION, 2),
            A,
            Over(OF_INT, 1),
            Over(POWER, 2),
            Int(-1),
            Int(2),
        ],
        "a U (-1 ^ 2)",
    ),
    (
        &[
            Over(UNION, 2),
            Over(OF_INT, 1),
            Over(PLUS, 2),
            Int(1),
            Int(2),
            A,
        ],
        "1 + 2 U a",
    ),
    // An inner hole takes everything as it is.
    (&[Over(PAIR, 2), A, Over(UNION, 2), B, C], "p(a,b U c)"),
    // More than two arguments are nested to the left, or to the right; a closed spelling shows it.
    (&[Over(UNION, 3), A, B, C], "a U b U c"),
    (&[Over(CHAIN, 3), A, B, C], "a V b V c"),
    (&[Over(ANGLES, 3), A, B, C], "< < a b > c >"),
    // Each of them is grouped where it may not stand as it is.
    (
        &[
            Over(CHAIN, 3),
            Over(UNION, 2),
            A,
            A,
            Over(UNION, 2),
            B,
            B,
            Over(UNION, 2),
            C,
            C,
        ],
        "(a U a) V (b U b) V (c U c)",
    ),
    // Brackets and commas stand close, and a `(` of a spelling does.
    (&[Over(UNION, 2), A, Over(BRACKETS, 1), B], "a U[b]"),
    (&[Over(NOT, 1), Over(UNION, 2), A, B], "not(a U b)"),
    (
        &[
            Over(BEFORE, 2),
            Over(POWER, 2),
            Int(1),
            Int(2),
            Over(ROUND, 1),
            NONE,
        ],
        "(1 ^ 2) #(none)",
    ),
];

#[test]
fn terms_are_printed_as_the_rules_say(rt: HostRuntime) -> Result<(), Fail> {
    let alloc = rt.alloc();
    let signature = signature(alloc)?;
    printed_terms_are_read();
    for row in &ROWS {
        assert!(rt; is_as_said(alloc, &signature, row)?, "{}", row.1);
    }
    Ok(())
}

/// An operator over so many letters.
fn wide(alloc: Global, op: u32, count: usize) -> Result<Term, NoMemory> {
    let mut letters = Items::new(alloc);
    for _ in 0..count {
        letters.push(Term {
            node: TermNode::App(OpId(0), Items::new(alloc)),
        })?;
    }
    Ok(over(op, letters))
}

/// A letter in so many brackets.
fn deep(alloc: Global, count: usize) -> Result<Term, NoMemory> {
    let mut found = Term {
        node: TermNode::App(OpId(0), Items::new(alloc)),
    };
    for _ in 0..count {
        let mut args = Items::new(alloc);
        args.push(found)?;
        found = over(BRACKETS, args);
    }
    Ok(found)
}

/// How long the text of a term is.
fn len(alloc: Global, signature: &Signature, term: &Term) -> Result<usize, NoMemory> {
    match printed(alloc, signature, term)? {
        None => Ok(0),
        Some(text) => Ok(text.len()),
    }
}

#[test]
fn wide_and_deep_terms_are_printed(rt: HostRuntime) -> Result<(), Fail> {
    let alloc = rt.alloc();
    let signature = signature(alloc)?;
    let left = wide(alloc, UNION, 20_000)?;
    assert_eq!(rt; len(alloc, &signature, &left)?, 79_997);
    let right = wide(alloc, CHAIN, 20_000)?;
    assert_eq!(rt; len(alloc, &signature, &right)?, 79_997);
    let deep = deep(alloc, 1_999)?;
    assert_eq!(rt; len(alloc, &signature, &deep)?, 3_999);
    Ok(())
}
