//! What no clause says: calls with ample memory.

ghost use Rattle.std.specs.Prelude.{◌≡◌};

use elan_bags::{
    NoMemory, above, except, first_of, is_among, minus, over, times, with_row, without,
};
use elan_table::{Blank, Name, Node, Table, TermRef};
use elan_terms::{Shapes, SortId};
use sqlite_items::Items;
use std::alloc::{AllocError, Global};
use std::marker::Brand;
use std::sync::Wait;
use std::test::Fail;

fn row<N: Name, R: Wait>(rt: &R, table: &Table<N>, value: i64) -> Result<TermRef<N>, NoMemory> {
    if table.takes_int(value) {
        table.int(rt, value)
    } else {
        Err(AllocError)
    }
}

fn rows<N: Name, R: Wait>(
    rt: &R,
    alloc: Global,
    table: &Table<N>,
    values: &[i64],
) -> Result<Items<TermRef<N>>, NoMemory> {
    let mut out = Items::new(alloc);
    for value in values {
        out.push(row(rt, table, *value)?)?;
    }
    Ok(out)
}

/// The integers of the rows, with 0 for what is none.
fn values<N: Name>(
    alloc: Global,
    table: &Table<N>,
    rows: &[TermRef<N>],
) -> Result<Vec<i64>, NoMemory> {
    let mut out = Vec::new(alloc);
    for row in rows {
        match table.node(row) {
            Node::Int(value) => out.push(value)?,
            Node::App(_, _) => out.push(0)?,
        }
    }
    Ok(out)
}

/// The same; nothing is the integer 0 alone.
fn found<N: Name>(
    alloc: Global,
    table: &Table<N>,
    rows: Option<Items<TermRef<N>>>,
) -> Result<Vec<i64>, NoMemory> {
    match rows {
        Some(rows) => values(alloc, table, rows.as_slice()),
        None => {
            let mut out = Vec::new(alloc);
            out.push(0)?;
            Ok(out)
        }
    }
}

// What the calls answer for 1, 1, 2, 3, 3, 3 and for 1, 3; each function puts two answers to the end.
fn taken<N: Name>(
    alloc: Global,
    table: &Table<N>,
    all: &[TermRef<N>],
    some: &[TermRef<N>],
    out: &mut Vec<Vec<i64>>,
) -> Result<(), NoMemory> {
    let left = minus(alloc, table, all, some)?;
    out.push(found(alloc, table, left)?)?;
    let left = except(alloc, table, some, all)?;
    out.push(values(alloc, table, left.as_slice())?)?;
    Ok(())
}

fn counted<N: Name>(
    alloc: Global,
    table: &Table<N>,
    all: &[TermRef<N>],
    some: &[TermRef<N>],
    out: &mut Vec<Vec<i64>>,
) -> Result<(), NoMemory> {
    let twice = times(alloc, 2, some)?;
    out.push(values(alloc, table, twice.as_slice())?)?;
    let half = over(alloc, table, 2, all)?;
    out.push(values(alloc, table, half.as_slice())?)?;
    Ok(())
}

fn changed<N: Name, R: Wait>(
    rt: &R,
    alloc: Global,
    table: &Table<N>,
    some: &[TermRef<N>],
    out: &mut Vec<Vec<i64>>,
) -> Result<(), NoMemory> {
    let two = row(rt, table, 2)?;
    let more = with_row(alloc, table, some, &two)?;
    out.push(values(alloc, table, more.as_slice())?)?;
    let fewer = without(alloc, some, 0)?;
    if !is_among(table, &two, some) {
        out.push(values(alloc, table, fewer.as_slice())?)?;
    }
    Ok(())
}

fn chosen<N: Name>(
    alloc: Global,
    table: &Table<N>,
    all: &[TermRef<N>],
    some: &[TermRef<N>],
    out: &mut Vec<Vec<i64>>,
) -> Result<(), NoMemory> {
    let first = first_of(alloc, all, 2)?;
    out.push(found(alloc, table, first)?)?;
    let next = above(alloc, table, all, 3, some)?;
    out.push(found(alloc, table, next)?)?;
    Ok(())
}

fn answers<N: Name, R: Wait>(rt: &R, alloc: Global, blank: Blank) -> Result<Vec<Vec<i64>>, NoMemory>
    requires { blank ≡ (N.root, N.shapes) }
{
    let table = Table::<N>::new(alloc, blank.named::<N>(alloc)?)?;
    let all = rows(rt, alloc, &table, &[1, 1, 2, 3, 3, 3])?;
    let some = rows(rt, alloc, &table, &[1, 3])?;
    let mut out = Vec::new(alloc);
    taken(alloc, &table, all.as_slice(), some.as_slice(), &mut out)?;
    counted(alloc, &table, all.as_slice(), some.as_slice(), &mut out)?;
    changed(rt, alloc, &table, some.as_slice(), &mut out)?;
    chosen(alloc, &table, all.as_slice(), some.as_slice(), &mut out)?;
    Ok(out)
}

#[test]
fn the_calls_answer_with_ample_memory(rt: HostRuntime) -> Result<(), Fail> {
    let alloc = rt.alloc();
    let blank = Blank::new(Shapes {
        shapes: Items::new(alloc),
        int: Some(SortId(0)),
    });
    let answers = answers::<Brand, _>(&rt, alloc, blank)?;
    let wanted: [&[i64]; 8] = [
        &[1, 2, 3, 3],
        &[],
        &[1, 1, 3, 3],
        &[1, 3],
        &[1, 2, 3],
        &[3],
        &[1, 1],
        &[2, 3, 3],
    ];
    assert_eq!(rt; answers.len(), 8);
    for (answer, wanted) in answers.iter().zip(wanted.iter()) {
        assert!(rt; answer.as_slice() == *wanted);
    }
    Ok(())
}
