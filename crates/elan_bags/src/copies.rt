//! Lists with more or fewer rows.
ghost use Rattle.std.specs.Prelude.{◌≡◌, ◌<◌, ◌≤◌, ◌++◌, ◌∷◌, [], length, take, slice_get, Some, IfOk, IsTrue};
ghost use Rattle.std.specs.List.{remove};
ghost use Rattle.std.proofs.Common.{replicate};
ghost use Rattle.elan_terms.specs.declared.tree.Term.{Term as TermValue};
ghost use Rattle.elan_terms.specs.Ascending.{Ascends};
ghost use Rattle.elan_terms.specs.Term.{put_in};
ghost use Rattle.elan_laws.specs.Parts as spec;
ghost use Rattle.elan_table.specs.Rows.{terms};
ghost use Rattle.elan_bags.specs.Bags.{IsManyTimes, IsLeft};

use crate::NoMemory;
use elan_table::{Name, Table, TermRef};
use sqlite_items::Items;
use std::alloc::Global;

/// Puts the rows to the end.
pub(crate) fn rows_onto<N: Name>(
    out: &mut Items<TermRef<N>>,
    rows: &[TermRef<N>],
) -> Result<(), NoMemory>
    ensures { IfOk result (λ _. terms out.new ≡ terms out.old ++ terms rows.now) }
{
    let mut left = rows;
    'rows: while let [row, rest @ ..] = left {
        out.push(row.again())?;
        left = rest;
    }
    Ok(())
}

/// Puts the row to the end, so many times.
fn copies_onto<N: Name>(
    out: &mut Items<TermRef<N>>,
    many: usize,
    row: &TermRef<N>,
) -> Result<(), NoMemory>
    ensures { IfOk result (λ _. terms out.new ≡ terms out.old ++ replicate many row.now.value) }
{
    'copies: for _ in 0..many {
        out.push(row.again())?;
    }
    Ok(())
}

/// Each row so many times. The answer ascends where the rows do.
pub fn times<N: Name>(
    alloc: Global,
    many: usize,
    rows: &[TermRef<N>],
) -> Result<Items<TermRef<N>>, NoMemory>
    ensures value { IfOk result (λ ws. IsManyTimes many (terms rows.now) (terms ws)) }
    ensures ascends { Ascends (terms rows.now) → IfOk result (λ ws. Ascends (terms ws)) }
{
    let mut out = Items::new(alloc);
    let mut left = rows;
    'rows: while let [row, rest @ ..] = left {
        copies_onto(&mut out, many, row)?;
        left = rest;
    }
    Ok(out)
}

/// The rows so far, then this one, then the others.
fn ended<N: Name>(
    so_far: Items<TermRef<N>>,
    row: &TermRef<N>,
    others: &[TermRef<N>],
) -> Result<Items<TermRef<N>>, NoMemory>
    ensures { IfOk result (λ ws. terms ws ≡ terms so_far ++ row.now.value ∷ terms others.now) }
{
    let mut out = so_far;
    out.push(row.again())?;
    rows_onto(&mut out, others)?;
    Ok(out)
}

/// The rows with one more in front of the first that does not stand before it.
fn put<N: Name>(
    alloc: Global,
    table: &Table<N>,
    rows: &[TermRef<N>],
    row: &TermRef<N>,
) -> Result<Items<TermRef<N>>, NoMemory>
    ensures { IfOk result (λ ws. terms ws ≡ put_in row.now.value (terms rows.now)) }
{
    let mut out = Items::new(alloc);
    let mut left = rows;
    'rows: while let [other, rest @ ..] = left {
        if !table.compare(row, other).is_gt() {
            return ended(out, row, left);
        }
        out.push(other.again())?;
        left = rest;
    }
    ended(out, row, left)
}

/// The rows with one more in its place. The answer ascends where the rows do.
#[tactic(auto, using(crate::proofs::RowLemmas::puts))]
pub fn with_row<N: Name>(
    alloc: Global,
    table: &Table<N>,
    rows: &[TermRef<N>],
    row: &TermRef<N>,
) -> Result<Items<TermRef<N>>, NoMemory>
    ensures value { IfOk result (λ ws. (t : TermValue) →
        spec.times t (terms ws) ≡ spec.times t (row.now.value ∷ terms rows.now)) }
    ensures ascends { Ascends (terms rows.now) → IfOk result (λ ws. Ascends (terms ws)) }
{
    let out = put(alloc, table, rows, row)?;
    Ok(out)
}

/// The first rows, so many; all where there are fewer.
#[tactic(auto, using(crate::proofs::RowLemmas::firsts))]
pub(crate) fn first_rows<'a, N: Name>(rows: &'a [TermRef<N>], many: usize) -> &'a [TermRef<N>]
    ensures { terms result.now ≡ take many (terms rows.now) }
{
    if many < rows.len() {
        rows.split_at(many).0
    } else {
        rows
    }
}

/// A copy of the rows.
fn copy<N: Name>(alloc: Global, rows: &[TermRef<N>]) -> Result<Items<TermRef<N>>, NoMemory>
    ensures { IfOk result (λ ws. terms ws ≡ terms rows.now) }
{
    let mut out = Items::new(alloc);
    rows_onto(&mut out, rows)?;
    Ok(out)
}

/// The rows without the item at the place.
#[tactic(auto, using(crate::proofs::RowLemmas::removes))]
fn removed<N: Name>(
    alloc: Global,
    rows: &[TermRef<N>],
    place: usize,
) -> Result<Items<TermRef<N>>, NoMemory>
    ensures { IfOk result (λ ws. terms ws ≡ remove (terms rows.now) place) }
{
    if place < rows.len() {
        let mut out = copy(alloc, rows)?;
        let _gone = out.remove(place);
        Ok(out)
    } else {
        let out = copy(alloc, rows)?;
        Ok(out)
    }
}

/// The rows without the item at the place, counted from 0; all of them where there is none.
pub fn without<N: Name>(
    alloc: Global,
    rows: &[TermRef<N>],
    place: usize,
) -> Result<Items<TermRef<N>>, NoMemory>
    ensures value { IfOk result (λ ws. terms ws ≡ remove (terms rows.now) place) }
    ensures left { (t : TermValue) → slice_get (terms rows.now) place ≡ Some t →
        IfOk result (λ ws. IsLeft (terms rows.now) (t ∷ []) (terms ws)) }
{
    let out = removed(alloc, rows, place)?;
    Ok(out)
}
