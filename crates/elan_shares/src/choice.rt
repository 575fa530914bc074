//! The first list of arguments for a node.
ghost use Rattle.std.specs.Prelude.{◌<◌, option_map, Some, IfOk, IsTrue};
ghost use Rattle.std.specs.Option.{option_copied};
ghost use Rattle.elan_terms.specs.Term.{is_ac};
ghost use Rattle.elan_terms.specs.Ascending.{Ascends};
ghost use Rattle.elan_table.specs.Rows.{terms};
ghost use Rattle.elan_shares.specs.Nodes.{FindsFirst, IsTaken, IsLonger, IsNextTo, IsPast, IsOver};

use crate::NoMemory;
use crate::share::Places;
use crate::size::{may_take, next_size};
use elan_bags::{above, first_of};
use elan_table::{Name, Table, TermRef, Top};
use elan_terms::OpId;
use sqlite_items::Items;
use std::alloc::Global;
use std::cmp::Ordering;

/// The first list of more than `past` of the rows that each place may take.
fn longer<N: Name>(
    alloc: Global,
    places: &Places,
    count: usize,
    rows: &[TermRef<N>],
    past: usize,
) -> Result<Option<Items<TermRef<N>>>, NoMemory>
    requires sought { 0 < places.now.sought }
    requires ascend { Ascends (terms rows.now) }
    ensures { IfOk result (λ found. FindsFirst
        (IsTaken places.now count (terms rows.now) (IsLonger past)) (option_map terms found)) }
{
    match next_size(places, count, past) {
        None => Ok(None),
        Some(many) => {
            let found = first_of(alloc, rows, many)?;
            Ok(found)
        }
    }
}

/// The first list of as many rows as `past` has, after it, that each place may take.
fn next_to<N: Name>(
    alloc: Global,
    table: &Table<N>,
    places: &Places,
    count: usize,
    rows: &[TermRef<N>],
    past: &[TermRef<N>],
) -> Result<Option<Items<TermRef<N>>>, NoMemory>
    requires { Ascends (terms rows.now) }
    ensures { IfOk result (λ found. FindsFirst
        (IsTaken places.now count (terms rows.now) (IsNextTo (terms past.now))) (option_map terms found)) }
{
    if may_take(places, count, past.len()) {
        let found = above(alloc, table, rows, past.len(), past)?;
        Ok(found)
    } else {
        Ok(None)
    }
}

/// The first list after `past` that each place may take.
fn past_all<N: Name>(
    alloc: Global,
    table: &Table<N>,
    places: &Places,
    count: usize,
    rows: &[TermRef<N>],
    past: &[TermRef<N>],
) -> Result<Option<Items<TermRef<N>>>, NoMemory>
    requires sought { 0 < places.now.sought }
    requires ascend { Ascends (terms rows.now) }
    ensures { IfOk result (λ found. FindsFirst
        (IsTaken places.now count (terms rows.now) (IsPast (terms past.now))) (option_map terms found)) }
{
    match next_to(alloc, table, places, count, rows, past)? {
        Some(found) => Ok(Some(found)),
        None => {
            let found = longer(alloc, places, count, rows, past.len())?;
            Ok(found)
        }
    }
}

/// The first list of at least two rows that each place may take, over which the operator comes
/// after the floor.
fn past_floor<N: Name>(
    alloc: Global,
    table: &Table<N>,
    op: OpId,
    places: &Places,
    count: usize,
    rows: &[TermRef<N>],
    floor: &TermRef<N>,
) -> Result<Option<Items<TermRef<N>>>, NoMemory>
    requires ac { IsTrue (is_ac N.shapes op) }
    requires sought { 0 < places.now.sought }
    requires ascend { Ascends (terms rows.now) }
    ensures { IfOk result (λ found. FindsFirst
        (IsTaken places.now count (terms rows.now) (IsOver op (Some floor.now))) (option_map terms found)) }
{
    match table.top(floor) {
        Top::Int(_) => {
            let found = longer(alloc, places, count, rows, 1)?;
            Ok(found)
        }
        Top::App(f, past) => match f.0.cmp(&op.0) {
            Ordering::Less => {
                let found = longer(alloc, places, count, rows, 1)?;
                Ok(found)
            }
            Ordering::Equal => {
                floor.known();
                let found = past_all(alloc, table, places, count, rows, past)?;
                Ok(found)
            }
            Ordering::Greater => Ok(None),
        },
    }
}

/// The same; where there is no floor, the first list of all.
pub(crate) fn first_args<N: Name>(
    alloc: Global,
    table: &Table<N>,
    op: OpId,
    places: &Places,
    count: usize,
    rows: &[TermRef<N>],
    floor: Option<&TermRef<N>>,
) -> Result<Option<Items<TermRef<N>>>, NoMemory>
    requires ac { IsTrue (is_ac N.shapes op) }
    requires sought { 0 < places.now.sought }
    requires ascend { Ascends (terms rows.now) }
    ensures { IfOk result (λ found. FindsFirst
        (IsTaken places.now count (terms rows.now) (IsOver op (option_copied floor.entry))) (option_map terms found)) }
{
    match floor {
        None => {
            let found = longer(alloc, places, count, rows, 1)?;
            Ok(found)
        }
        Some(floor) => {
            let found = past_floor(alloc, table, op, places, count, rows, floor)?;
            Ok(found)
        }
    }
}
