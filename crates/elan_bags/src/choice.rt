//! Some of the rows, in the order of such lists.
ghost use Rattle.std.specs.Prelude.{◌≡◌, ◌≤◌, ◌-◌, ◌++◌, length, take, drop, nat_lt, option_map, if◌then◌else◌, Option, Some, None, IfOk};
ghost use Rattle.elan_terms.specs.Ascending.{Ascends};
ghost use Rattle.elan_table.specs.Rows.{terms};
ghost use Rattle.elan_bags.specs.Choices.{IsPick, IsChoice, FindsLeast};

use crate::NoMemory;
use crate::copies::{first_rows, rows_onto};
use crate::cut::{beyond, later, place, since};
use elan_table::{Name, Table, TermRef};
use sqlite_items::Items;
use std::alloc::Global;

/// The first of the rows, so many, if there are so many.
fn firsts<N: Name>(
    alloc: Global,
    rows: &[TermRef<N>],
    many: usize,
) -> Result<Option<Items<TermRef<N>>>, NoMemory>
    ensures { IfOk result (λ found. option_map terms found
        ≡ (if nat_lt (length (terms rows.now)) many then None else Some (take many (terms rows.now)))) }
{
    if rows.len() < many {
        Ok(None)
    } else {
        let mut out = Items::new(alloc);
        rows_onto(&mut out, first_rows(rows, many))?;
        Ok(Some(out))
    }
}

/// The first of the rows, so many, if there are so many: of rows that ascend, the least list that is
/// so many of them.
#[tactic(auto, using(crate::proofs::ChoiceLemmas::firsts_found))]
pub fn first_of<N: Name>(
    alloc: Global,
    rows: &[TermRef<N>],
    many: usize,
) -> Result<Option<Items<TermRef<N>>>, NoMemory>
    ensures value { IfOk result (λ found. option_map terms found
        ≡ (if nat_lt (length (terms rows.now)) many then None else Some (take many (terms rows.now)))) }
    ensures least { Ascends (terms rows.now) →
        IfOk result (λ found. FindsLeast (IsPick (terms rows.now) many) (option_map terms found)) }
{
    let found = firsts(alloc, rows, many)?;
    Ok(found)
}

/// The first rows of `past`, so many, and then the first of the others, until there are `many`.
fn joined<N: Name>(
    alloc: Global,
    past: &[TermRef<N>],
    stay: usize,
    many: usize,
    others: &[TermRef<N>],
) -> Result<Items<TermRef<N>>, NoMemory>
    ensures { IfOk result (λ ws. terms ws
        ≡ take stay (terms past.now) ++ take (many - stay) (terms others.now)) }
{
    let mut out = Items::new(alloc);
    rows_onto(&mut out, first_rows(past, stay))?;
    rows_onto(&mut out, first_rows(others, many.saturating_sub(stay)))?;
    Ok(out)
}

/// The same, if something was found.
fn chosen<N: Name>(
    alloc: Global,
    past: &[TermRef<N>],
    is_found: bool,
    stay: usize,
    many: usize,
    others: &[TermRef<N>],
) -> Result<Option<Items<TermRef<N>>>, NoMemory>
    ensures { IfOk result (λ found. option_map terms found
        ≡ (if is_found then Some (take stay (terms past.now) ++ take (many - stay) (terms others.now)) else None)) }
{
    if is_found {
        let found = joined(alloc, past, stay, many, others)?;
        Ok(Some(found))
    } else {
        Ok(None)
    }
}

/// The least list that is `many` of the rows and begins with greater terms than `past`, which is not
/// longer; `None` where there is none. The rows ascend. It takes time by `past` times `rows`.
pub fn above<N: Name>(
    alloc: Global,
    table: &Table<N>,
    rows: &[TermRef<N>],
    many: usize,
    past: &[TermRef<N>],
) -> Result<Option<Items<TermRef<N>>>, NoMemory>
    ensures { Ascends (terms rows.now) → length (terms past.now) ≤ many →
        IfOk result (λ found. FindsLeast (IsChoice (terms rows.now) many (terms past.now)) (option_map terms found)) }
{
    let mut is_found = false;
    let mut stay = 0;
    let mut others = rows;
    let mut left = rows;
    'bounds: for (kept, bound) in past.iter().enumerate() {
        let from = since(table, bound, left);
        let greater = beyond(table, bound, from);
        if many.saturating_sub(kept) <= greater.len() {
            is_found = true;
            stay = kept;
            others = greater;
        }
        if !place(table, bound, from).is_eq() {
            let found = chosen(alloc, past, is_found, stay, many, others)?;
            return Ok(found);
        }
        left = later(from);
    }
    let found = chosen(alloc, past, is_found, stay, many, others)?;
    Ok(found)
}
