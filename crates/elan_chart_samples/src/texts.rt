//! Texts and what they are read as.

use crate::shown::shown;
use crate::signatures::{Row, signature};
use elan_chart::laws::{each_text_has_one_answer, readings_fit};
use elan_program::{Assoc, Signature};
use elan_reading::Sought;
use elan_terms::SortId;
use elan_text::NoMemory;
use std::alloc::Global;
use std::test::Fail;

// Sort 0 has the integers, sort 1 is for truth values, 2 has the injection 9 from the integers, and 3 is for `d`.
fn sample(alloc: Global) -> Result<Signature, NoMemory> {
    let rows: [Row<'_>; 14] = [
        (b"@ + @", &[0, 0], 0, 50, Assoc::Left, false),
        (b"@ * @", &[0, 0], 0, 60, Assoc::Left, false),
        (b"@ ^ @", &[0, 0], 0, 0, Assoc::No, false),
        (b"@ . @", &[0, 0], 0, 5, Assoc::Right, false),
        (b"f ( @ , @ )", &[0, 0], 0, 0, Assoc::No, false),
        (b"c", &[], 2, 0, Assoc::No, false),
        (b"@ < @", &[0, 0], 1, 40, Assoc::No, false),
        (b"not @", &[1], 1, 30, Assoc::No, false),
        (b"@ and @", &[1, 1], 1, 20, Assoc::Left, false),
        (b"@", &[0], 2, 0, Assoc::No, false),
        (b"@ | @", &[2, 2], 2, 0, Assoc::Right, false),
        (b"@ @", &[3, 3], 3, 0, Assoc::No, false),
        (b"d", &[], 3, 0, Assoc::No, false),
        (b"@ U @", &[2, 2], 2, 0, Assoc::No, true),
    ];
    signature(alloc, 4, Some(SortId(0)), &rows)
}

fn is_read(
    alloc: Global,
    signature: &Signature,
    sought: Sought,
    row: &(u32, &[u8], &[u8]),
) -> Result<bool, NoMemory> {
    let found = shown(alloc, signature, sought, row.1)?;
    Ok(found.as_slice() == row.2)
}

#[test]
fn texts_have_their_readings(rt: HostRuntime) -> Result<(), Fail> {
    let alloc = rt.alloc();
    let rows: [(u32, &[u8], &[u8]); 40] = [
        (0, b"7", b"7"),
        (0, b"- 7", b"-7"),
        (0, b"-7", b"-7"),
        (0, b"-0", b"0"),
        (0, b"9223372036854775807", b"9223372036854775807"),
        (0, b"- 9223372036854775807", b"-9223372036854775807"),
        (0, b"v", b"x7"),
        (0, b"((7))", b"7"),
        (0, b"w", b"none"),
        (0, b"()", b"none"),
        (0, b"", b"none"),
        (0, b"- v", b"none"),
        (1, b"v", b"none"),
        (2, b"v", b"f9(x7)"),
        (0, b"1 + 2 + 3", b"f0(f0(1,2),3)"),
        (0, b"1 + 2 * 3", b"f0(1,f1(2,3))"),
        (0, b"1 * 2 + 3", b"f0(f1(1,2),3)"),
        (0, b"1 * (2 + 3)", b"f1(1,f0(2,3))"),
        (0, b"1 + (2 + 3)", b"f0(1,f0(2,3))"),
        (0, b"1 + -2", b"f0(1,-2)"),
        (0, b"1 ^ 2 ^ 3", b"none"),
        (0, b"(1 ^ 2) ^ 3", b"f2(f2(1,2),3)"),
        (0, b"1 . 2 . 3", b"f3(1,f3(2,3))"),
        (0, b"f(1,2 + v)", b"f4(1,f0(2,x7))"),
        (0, b"f(1 ^ 2, f(3,4)) ^ 5", b"f2(f4(f2(1,2),f4(3,4)),5)"),
        (1, b"not 1 < 2 and 3 < 4", b"f8(f7(f6(1,2)),f6(3,4))"),
        (2, b"1", b"f9(1)"),
        (2, b"(1)", b"f9(1)"),
        (2, b"c | 1 + 2 | c", b"f10(f5(),f10(f9(f0(1,2)),f5()))"),
        // An injection is looked through: the priority of `.` is 5, that of `^` is 0 and that of `|` is 0.
        (2, b"1 . 2 | c", b"f10(f9(f3(1,2)),f5())"),
        (2, b"1 ^ 2 | c", b"none"),
        (2, b"(1 ^ 2) | c", b"f10(f9(f2(1,2)),f5())"),
        // An operator that is associative and commutative, and has no associativity, counts as `assocLeft`.
        (2, b"c U c U c", b"f13(f13(f5(),f5()),f5())"),
        (2, b"c U (c U c)", b"f13(f5(),f13(f5(),f5()))"),
        (2, b"1 U 2", b"f13(f9(1),f9(2))"),
        (3, b"d d", b"f11(f12(),f12())"),
        (3, b"(d d) d", b"f11(f11(f12(),f12()),f12())"),
        (3, b"d (d d)", b"f11(f12(),f11(f12(),f12()))"),
        (3, b"d d d", b"none"),
        (3, b"c", b"none"),
    ];
    let signature = sample(alloc)?;
    for row in &rows {
        assert!(rt; is_read(alloc, &signature, Sought::Sort(SortId(row.0)), row)?);
    }
    Ok(())
}

#[test]
fn any_sort_leaves_injections_out(rt: HostRuntime) -> Result<(), Fail> {
    let alloc = rt.alloc();
    let rows: [(u32, &[u8], &[u8]); 4] = [
        (0, b"1 + 2", b"f0(1,2)"),
        (0, b"(1)", b"1"),
        (0, b"c", b"f5()"),
        (0, b"w", b"none"),
    ];
    let signature = sample(alloc)?;
    for row in &rows {
        assert!(rt; is_read(alloc, &signature, Sought::Any, row)?);
    }
    Ok(())
}

#[test]
fn two_trees_are_several(rt: HostRuntime) -> Result<(), Fail> {
    let alloc = rt.alloc();
    // The constant `a` at two sorts, and an injection from the first of them to the second.
    let operators: [Row<'_>; 5] = [
        (b"a", &[], 0, 0, Assoc::No, false),
        (b"a", &[], 1, 0, Assoc::No, false),
        (b"@", &[0], 1, 0, Assoc::No, false),
        (b"@ + @", &[2, 2], 2, 0, Assoc::Left, false),
        (b"@ + @", &[2, 2], 2, 0, Assoc::Left, false),
    ];
    let signature = signature(alloc, 3, Some(SortId(2)), &operators)?;
    let rows: [(u32, &[u8], &[u8]); 6] = [
        (1, b"a", b"several"),
        (0, b"a", b"f0()"),
        (1, b"(a)", b"several"),
        (2, b"1 + 2", b"several"),
        (2, b"1 + 2 + 3", b"several"),
        (2, b"1", b"1"),
    ];
    for row in &rows {
        assert!(rt; is_read(alloc, &signature, Sought::Sort(SortId(row.0)), row)?);
    }
    assert!(rt; is_read(alloc, &signature, Sought::Any, &(0, b"a", b"several"))?);
    Ok(())
}

/// A word so often.
fn repeated(alloc: Global, word: &[u8], count: usize) -> Result<Vec<u8>, NoMemory> {
    let mut text = Vec::new(alloc);
    for _ in 0..count {
        text.extend_from_slice(word)?;
    }
    Ok(text)
}

#[test]
fn more_than_256_tokens_are_too_long(rt: HostRuntime) -> Result<(), Fail> {
    let alloc = rt.alloc();
    let signature = sample(alloc)?;
    let sought = Sought::Sort(SortId(0));
    let long = repeated(alloc, b"w ", 257)?;
    let short = repeated(alloc, b"w ", 256)?;
    assert!(rt;
        is_read(
            alloc,
            &signature,
            sought,
            &(0, long.as_slice(), b"too long")
        )?
    );
    assert!(rt; is_read(alloc, &signature, sought, &(0, short.as_slice(), b"none"))?);
    Ok(())
}

#[test]
fn a_sum_is_read_from_the_left(rt: HostRuntime) -> Result<(), Fail> {
    let alloc = rt.alloc();
    let signature = sample(alloc)?;
    let mut text = repeated(alloc, b"1 + ", 15)?;
    text.push(b'2')?;
    let found = shown(alloc, &signature, Sought::Sort(SortId(0)), text.as_slice())?;
    let mut expected = repeated(alloc, b"f0(", 15)?;
    expected.push(b'1')?;
    expected.extend_from_slice(repeated(alloc, b",1)", 14)?.as_slice())?;
    expected.extend_from_slice(b",2)")?;
    assert!(rt; found.as_slice() == expected.as_slice());
    Ok(())
}

#[test]
fn a_law_does_nothing() {
    readings_fit();
    each_text_has_one_answer();
}
