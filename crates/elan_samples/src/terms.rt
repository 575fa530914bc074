//! Terms: parts, canonical forms, matches, depth and validity.

use crate::spelled::{sets, spell_onto, term};
use elan_terms::{
    NoMemory, OpId, Pattern, PatternNode, SortId, Term, canon, compare, copy, depth, is_ascending,
    is_canonical, is_deeper, is_valid, matches, parts,
};
use sqlite_items::Items;
use std::alloc::Global;
use std::cmp::Ordering;
use std::test::Fail;

/// Each part with a space behind it.
fn parts_of(alloc: Global, letters: &[u8]) -> Result<String, NoMemory> {
    let shapes = sets(alloc)?;
    let all = parts(alloc, &shapes, &term(alloc, letters)?)?;
    let mut text = String::new(alloc);
    for part in all.as_slice() {
        spell_onto(&mut text, part)?;
        text.push(' ')?;
    }
    Ok(text)
}

#[test]
fn a_union_of_three_has_seven_parts(rt: HostRuntime) -> Result<(), Fail> {
    let found = parts_of(rt.alloc(), b"abc3")?;
    assert_eq!(rt; found.as_str(), "a b c ab ac bc abc ");
    Ok(())
}

/// How the canonical form of the first stands to the second.
fn form_against(alloc: Global, letters: &[u8], other: &[u8]) -> Result<Ordering, NoMemory> {
    let shapes = sets(alloc)?;
    let made = canon(alloc, &shapes, &term(alloc, letters)?)?;
    Ok(compare(&made, &term(alloc, other)?))
}

#[test]
fn a_canonical_form_is_flat_and_ascends(rt: HostRuntime) -> Result<(), Fail> {
    let found = form_against(rt.alloc(), b"ca2b2", b"abc3")?;
    assert_eq!(rt; found, Ordering::Equal);
    Ok(())
}

#[test]
fn a_copy_is_equal_to_what_it_copies(rt: HostRuntime) -> Result<(), Fail> {
    let term = term(rt.alloc(), b"ca2b2")?;
    assert_eq!(rt; compare(&copy(rt.alloc(), &term)?, &term), Ordering::Equal);
    Ok(())
}

fn variable(number: u32) -> Pattern {
    Pattern {
        node: PatternNode::Var(number, SortId(0)),
    }
}

fn union_of(alloc: Global, first: u32, second: u32) -> Result<Pattern, NoMemory> {
    let mut args = Items::new(alloc);
    args.push(variable(first))?;
    args.push(variable(second))?;
    Ok(Pattern {
        node: PatternNode::App(OpId(3), args),
    })
}

/// Puts the values of a match to the end, with a comma behind each.
fn match_onto(text: &mut String, values: &[Term]) -> Result<(), NoMemory> {
    for value in values {
        spell_onto(text, value)?;
        text.push(',')?;
    }
    text.push(' ')
}

/// The matches of the U of two variables of these numbers.
fn matches_of(alloc: Global, first: u32, second: u32, letters: &[u8]) -> Result<String, NoMemory> {
    let shapes = sets(alloc)?;
    let pattern = union_of(alloc, first, second)?;
    let found = matches(alloc, &shapes, &pattern, &term(alloc, letters)?)?;
    let mut text = String::new(alloc);
    for values in found.as_slice() {
        match_onto(&mut text, values.as_slice())?;
    }
    Ok(text)
}

#[test]
fn variables_part_a_union_in_each_way(rt: HostRuntime) -> Result<(), Fail> {
    let rows = [
        (
            1u32,
            b"abc3".as_slice(),
            "a,bc, b,ac, c,ab, ab,c, ac,b, bc,a, ",
        ),
        (0, b"aabb4", "ab, "),
    ];
    for (second, letters, wanted) in rows {
        let found = matches_of(rt.alloc(), 0, second, letters)?;
        assert_eq!(rt; found.as_str(), wanted);
    }
    Ok(())
}

#[test]
fn a_constant_has_depth_one(rt: HostRuntime) -> Result<(), Fail> {
    let rows = [(b"a".as_slice(), 1), (b"ab2", 2), (b"ab2c2", 3)];
    for (letters, wanted) in rows {
        let term = term(rt.alloc(), letters)?;
        assert_eq!(rt; depth(&term), wanted);
    }
    Ok(())
}

#[test]
fn a_term_is_deeper_than_a_number_below_its_depth(rt: HostRuntime) -> Result<(), Fail> {
    let term = term(rt.alloc(), b"ab2")?;
    for (number, wanted) in [(0u32, true), (1, true), (2, false), (3, false)] {
        assert_eq!(rt; is_deeper(&term, number), wanted);
    }
    Ok(())
}

#[test]
fn sorts_and_numbers_of_arguments_make_a_term_valid(rt: HostRuntime) -> Result<(), Fail> {
    let shapes = sets(rt.alloc())?;
    let rows = [
        (b"cab3".as_slice(), true),
        (b"gs", true),
        (b"a1", false),
        (b"an2", false),
        (b"as", false),
        (b"af", false),
        (b"e", false),
        (b"z", false),
        (b"m", false),
    ];
    for (letters, wanted) in rows {
        let term = term(rt.alloc(), letters)?;
        assert_eq!(rt; is_valid(&shapes, &term), wanted);
    }
    Ok(())
}

#[test]
fn a_term_that_is_flat_and_ascends_is_canonical(rt: HostRuntime) -> Result<(), Fail> {
    let shapes = sets(rt.alloc())?;
    let rows = [
        (b"abc3".as_slice(), true),
        (b"aab3", true),
        (b"ba2", false),
        (b"ab2c2", false),
    ];
    for (letters, wanted) in rows {
        let term = term(rt.alloc(), letters)?;
        assert_eq!(rt; is_canonical(&shapes, &term), wanted);
    }
    Ok(())
}

fn ascend(alloc: Global, first: &[u8], second: &[u8]) -> Result<bool, NoMemory> {
    let first = term(alloc, first)?;
    let second = term(alloc, second)?;
    Ok(is_ascending([first, second].as_slice()))
}

#[test]
fn terms_ascend_where_none_stands_before_one_in_front_of_it(rt: HostRuntime) -> Result<(), Fail> {
    let rows = [
        (b"a".as_slice(), b"a".as_slice(), true),
        (b"a", b"abc3", true),
        (b"ab2c2", b"n", false),
    ];
    for (first, second, wanted) in rows {
        assert_eq!(rt; ascend(rt.alloc(), first, second)?, wanted);
    }
    Ok(())
}
