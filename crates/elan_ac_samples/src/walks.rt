//! Lists of matches, worked out by hand.
ghost use Rattle.std.specs.Prelude.{◌≡◌};

use elan_letters::{are_numbered, blank, pattern, row, values_onto};
use elan_table::{Blank, Name, NoMemory, Table, TermRef};
use elan_terms::{Pattern, variables};
use elan_walk::{AcWalk, matches};
use std::alloc::{AllocError, Global};
use std::marker::Brand;
use std::sync::Wait;
use std::test::Fail;

/// A pattern, a term, and the matches: the values of the variables in the order in which these stand in the pattern.
type Row = (&'static [u8], &'static [u8], &'static str);

const ROWS: &[Row] = &[
    (b"X", b"abU", "(ab) "),
    (b"abU", b"abU", " "),
    (b"abU", b"acU", ""),
    (b"XYG", b"abG", "a,b "),
    (b"XXG", b"abG", ""),
    (
        b"XYU",
        b"abc3U",
        "a,(bc) b,(ac) c,(ab) (ab),c (ac),b (bc),a ",
    ),
    (b"XYU", b"aab3U", "a,(ab) b,(aa) (aa),b (ab),a "),
    (b"XXU", b"aabb4U", "(ab) "),
    (b"XXU", b"abU", ""),
    (b"XXY3U", b"aabb4U", "a,(bb) b,(aa) "),
    (b"XXYY4U", b"aabb4U", "a,b b,a "),
    (b"XXYY4U", b"aab3U", ""),
    (b"XYZ3U", b"abc3U", "a,b,c a,c,b b,a,c b,c,a c,a,b c,b,a "),
    (b"XYUZU", b"abc3U", "a,b,c a,c,b b,a,c b,c,a c,a,b c,b,a "),
    (b"aXU", b"abc3U", "(bc) "),
    (b"dXU", b"abc3U", ""),
    (b"Xaa3U", b"aabb4U", "(bb) "),
    (b"XYFU", b"abFcF3U", "(aFb),c (aFc),b "),
    (b"YFXU", b"abFcF3U", "b,(aFc) c,(aFb) "),
    (b"XFYFU", b"aFbFU", "a,b b,a "),
    (b"XFXFU", b"aFaFU", "a "),
    (b"XFXFU", b"aFbFU", ""),
    (b"XYUFZU", b"cabUFU", "a,b,c b,a,c "),
    (b"XYUYZUG", b"abUbcUG", "a,b,c "),
    (
        b"XYUXZUG",
        b"abc3Uabd3UG",
        "a,(bc),(bd) b,(ac),(ad) (ab),c,d ",
    ),
    (b"YXYUG", b"babUG", "b,a "),
    (b"XYPZU", b"cabPU", "a,b,c b,a,c "),
    (b"XYU", b"cabPU", "c,[ab] [ab],c "),
    (b"KIXU", b"ayIzI3U", "y,(aIz) z,(aIy) "),
    (b"KLVIXU", b"ayzVIU", "y,z,a z,y,a "),
    (b"KIKIU", b"yIyIU", "y "),
];

/// All matches, where the pattern's variables are numbered in order.
fn listed<N: Name, R: Wait>(
    rt: &R,
    alloc: Global,
    table: &Table<N>,
    pattern: &Pattern,
    term: TermRef<N>,
) -> Result<String, NoMemory> {
    if !are_numbered(0, variables(alloc, pattern)?.as_slice()) {
        return Err(AllocError);
    }
    let all = matches(rt, alloc, table, pattern, 0, term)?;
    let mut text = String::new(alloc);
    for values in all.as_slice() {
        values_onto(table, &mut text, values.as_slice())?;
    }
    Ok(text)
}

/// Whether the matches of a row are those that it says.
fn is_right<N: Name, R: Wait>(
    rt: &R,
    alloc: Global,
    table: &Table<N>,
    row_of: &Row,
) -> Result<bool, NoMemory> {
    let pattern = pattern(alloc, row_of.0)?;
    let term = row(rt, alloc, table, row_of.1)?;
    let found = listed(rt, alloc, table, &pattern, term)?;
    Ok(found.as_str() == row_of.2)
}

/// The place of the first row with other matches.
fn wrong_row<N: Name, R: Wait>(
    rt: &R,
    alloc: Global,
    blank: Blank,
    rows: &[Row],
) -> Result<Option<usize>, NoMemory>
    requires { blank ≡ (N.root, N.shapes) }
{
    let table = Table::<N>::new(alloc, blank.named::<N>(alloc)?)?;
    for (place, row) in rows.iter().enumerate() {
        if !is_right(rt, alloc, &table, row)? {
            return Ok(Some(place));
        }
    }
    Ok(None)
}

#[test]
fn each_match_stands_in_its_place(rt: HostRuntime) -> Result<(), Fail> {
    let wrong = wrong_row::<Brand, _>(&rt, rt.alloc(), blank(rt.alloc())?, ROWS)?;
    assert_eq!(rt; wrong, None);
    Ok(())
}

/// Puts the next matches of a walk to the end, at most so many.
fn next_onto<N: Name, R: Wait>(
    rt: &R,
    alloc: Global,
    table: &Table<N>,
    walk: &mut AcWalk<N>,
    most: usize,
    text: &mut String,
) -> Result<(), NoMemory> {
    for _ in 0..most {
        match walk.next(rt, alloc, table)? {
            None => text.push('.')?,
            Some(values) => values_onto(table, text, values.as_slice())?,
        }
    }
    Ok(())
}

/// The walk over the matches of a pattern whose variables are numbered in order.
fn walk_of<N: Name, R: Wait>(
    rt: &R,
    alloc: Global,
    table: &Table<N>,
    letters: &[u8],
    term: &[u8],
) -> Result<AcWalk<N>, NoMemory> {
    let pattern = pattern(alloc, letters)?;
    if !are_numbered(0, variables(alloc, &pattern)?.as_slice()) {
        return Err(AllocError);
    }
    AcWalk::new(alloc, &pattern, 0, row(rt, alloc, table, term)?)
}

/// Two matches of a walk, then those of a fork, and then those of the walk.
fn forked<N: Name, R: Wait>(rt: &R, alloc: Global, blank: Blank) -> Result<String, NoMemory>
    requires { blank ≡ (N.root, N.shapes) }
{
    let table = Table::<N>::new(alloc, blank.named::<N>(alloc)?)?;
    let mut walk = walk_of(rt, alloc, &table, b"XYU", b"abc3U")?;
    let mut text = String::new(alloc);
    next_onto(rt, alloc, &table, &mut walk, 2, &mut text)?;
    let mut other = walk.fork(alloc)?;
    next_onto(rt, alloc, &table, &mut other, 5, &mut text)?;
    next_onto(rt, alloc, &table, &mut walk, 5, &mut text)?;
    Ok(text)
}

#[test]
fn a_fork_owes_what_its_walk_owes(rt: HostRuntime) -> Result<(), Fail> {
    let found = forked::<Brand, _>(&rt, rt.alloc(), blank(rt.alloc())?)?;
    assert_eq!(rt;
        found.as_str(),
        "a,(bc) b,(ac) c,(ab) (ab),c (ac),b (bc),a .c,(ab) (ab),c (ac),b (bc),a ."
    );
    Ok(())
}

/// The first match of two variables on twenty-four constants.
fn first_of_many<N: Name, R: Wait>(rt: &R, alloc: Global, blank: Blank) -> Result<String, NoMemory>
    requires { blank ≡ (N.root, N.shapes) }
{
    let table = Table::<N>::new(alloc, blank.named::<N>(alloc)?)?;
    let mut walk = walk_of(rt, alloc, &table, b"XYU", b"abcdefghijklmnopqrstuvwx24U")?;
    let mut text = String::new(alloc);
    next_onto(rt, alloc, &table, &mut walk, 1, &mut text)?;
    Ok(text)
}

#[test]
fn the_first_match_is_found_without_the_others(rt: HostRuntime) -> Result<(), Fail> {
    let found = first_of_many::<Brand, _>(&rt, rt.alloc(), blank(rt.alloc())?)?;
    assert_eq!(rt; found.as_str(), "a,(bcdefghijklmnopqrstuvwx) ");
    Ok(())
}
