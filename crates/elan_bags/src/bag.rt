//! Taking away and sharing out.
ghost use Rattle.std.specs.Prelude.{◌≡◌, ◌<◌, ◌≤◌, ◌↔◌, option_map, IfOk, IsTrue};
ghost use Rattle.elan_terms.specs.Ascending.{Ascends};
ghost use Rattle.elan_laws.specs.Parts.{times as count};
ghost use Rattle.elan_table.specs.Rows.{terms};
ghost use Rattle.elan_bags.specs.Bags.{IsMinus, IsExcept, IsOver};
ghost use Rattle.elan_bags.specs.Cuts.{counted as spec_counted};

use crate::NoMemory;
use crate::cut::{later, place, since};
use elan_table::{Name, Table, TermRef};
use sqlite_items::Items;
use std::alloc::Global;
use std::cmp::Ordering;

/// What is left of the rows when others are taken away; `None` where those are not some of the
/// rows. The rows ascend, and so does what is left of them.
#[tactic(auto, using(crate::proofs::MinusLemmas::steps))]
pub fn minus<N: Name>(
    alloc: Global,
    table: &Table<N>,
    rows: &[TermRef<N>],
    others: &[TermRef<N>],
) -> Result<Option<Items<TermRef<N>>>, NoMemory>
    ensures { Ascends (terms rows.now) →
        IfOk result (λ found. IsMinus (terms rows.now) (terms others.now) (option_map terms found)) }
{
    let mut out = Items::new(alloc);
    let mut left = rows;
    let mut gone = others;
    'rows: while let [row, rest @ ..] = left {
        match place(table, row, gone) {
            Ordering::Less => out.push(row.again())?,
            Ordering::Equal => gone = later(gone),
            Ordering::Greater => return Ok(None),
        }
        left = rest;
    }
    match gone {
        [] => Ok(Some(out)),
        [_, ..] => Ok(None),
    }
}

/// What is left of the rows when those of the others that are there are taken away. Both ascend,
/// and so does what is left.
pub fn except<N: Name>(
    alloc: Global,
    table: &Table<N>,
    rows: &[TermRef<N>],
    others: &[TermRef<N>],
) -> Result<Items<TermRef<N>>, NoMemory>
    ensures { Ascends (terms rows.now) → Ascends (terms others.now) →
        IfOk result (λ ws. IsExcept (terms rows.now) (terms others.now) (terms ws)) }
{
    let mut out = Items::new(alloc);
    let mut left = rows;
    let mut gone = others;
    'rows: while let [row, rest @ ..] = left {
        gone = since(table, row, gone);
        if place(table, row, gone).is_eq() {
            gone = later(gone);
        } else {
            out.push(row.again())?;
        }
        left = rest;
    }
    Ok(out)
}

/// How many equal rows were passed with this one, where `seen` of the last one were.
fn counted<N: Name>(
    table: &Table<N>,
    last: &TermRef<N>,
    seen: usize,
    many: usize,
    row: &TermRef<N>,
) -> usize
    requires { seen < many }
    ensures value { result ≡ spec_counted last.now.value seen row.now.value }
    ensures within { result ≤ many }
{
    if table.compare(last, row).is_eq() {
        seen + 1
    } else {
        1
    }
}

/// Each row as often as it is there so many times, and `many` is not 0. The rows ascend, and so
/// does the answer.
#[tactic(auto, using(crate::proofs::OverLemmas::overs))]
pub fn over<N: Name>(
    alloc: Global,
    table: &Table<N>,
    many: usize,
    rows: &[TermRef<N>],
) -> Result<Items<TermRef<N>>, NoMemory>
    requires { 0 < many }
    ensures { Ascends (terms rows.now) →
        IfOk result (λ ws. IsOver many (terms rows.now) (terms ws)) }
{
    let mut out = Items::new(alloc);
    let mut last = match rows {
        [] => return Ok(out),
        [first, ..] => first,
    };
    let mut seen = 0;
    let mut left = rows;
    'rows: while let [row, rest @ ..] = left {
        let count = counted(table, last, seen, many, row);
        if count == many {
            out.push(row.again())?;
            seen = 0;
        } else {
            seen = count;
        }
        last = row;
        left = rest;
    }
    Ok(out)
}

/// Whether the term of the row is that of one of the others.
pub fn is_among<N: Name>(table: &Table<N>, row: &TermRef<N>, others: &[TermRef<N>]) -> bool
    ensures { IsTrue result ↔ (0 < count row.now.value (terms others.now)) }
{
    let mut left = others;
    'others: while let [other, rest @ ..] = left {
        if table.compare(row, other).is_eq() {
            return true;
        }
        left = rest;
    }
    false
}
