//! A value that is one of the arguments.
ghost use Rattle.std.specs.Prelude.{◌≡◌, ◌↔◌, slice_get, Some, IsTrue};
ghost use Rattle.std.specs.Option.{option_copied};
ghost use Rattle.elan_terms.specs.Term.{sort_of as spec_sort, shape_sort};
ghost use Rattle.elan_terms.specs.Canonical.{is_headed as spec_headed};
ghost use Rattle.elan_terms.specs.Valid.{HasSort};
ghost use Rattle.elan_terms.specs.Ascending.{Ascends};
ghost use Rattle.elan_table.specs.Rows.{terms};
ghost use Rattle.elan_shares.specs.Shares.{After, FindsLeastTerm};
ghost use Rattle.elan_shares.specs.Singles.{Suits, IsSingle, IsAlone};

use crate::share::Places;
use crate::size::may_take;
use elan_table::{Name, Table, TermRef, Top};
use elan_terms::{OpId, Shapes, SortId};

fn op_sort(shapes: &Shapes, op: OpId) -> Option<SortId>
    ensures { result ≡ shape_sort (slice_get shapes.now.shapes op.0) }
{
    match shapes.shapes.get(op.0 as usize) {
        None => None,
        Some(shape) => Some(shape.sort),
    }
}

#[tactic(auto, using(crate::proofs::SingleLemmas::sorts))]
fn sort_of<N: Name>(table: &Table<N>, row: &TermRef<N>) -> Option<SortId>
    ensures { result ≡ spec_sort N.shapes row.now.value }
{
    match table.top(row) {
        Top::Int(_) => table.shapes().int,
        Top::App(op, _) => op_sort(table.shapes(), op),
    }
}

/// Whether there is a sort and it is this one.
fn is_sort(own: Option<SortId>, sort: SortId) -> bool
    ensures { IsTrue result ↔ (own ≡ Some sort) }
{
    match own {
        None => false,
        Some(own) => own.0 == sort.0,
    }
}

/// Whether the operator makes terms of this sort.
pub(crate) fn makes<N: Name>(table: &Table<N>, op: OpId, sort: SortId) -> bool
    ensures { IsTrue result ↔ (shape_sort (slice_get N.shapes.shapes op.0) ≡ Some sort) }
{
    is_sort(op_sort(table.shapes(), op), sort)
}

fn is_headed<N: Name>(table: &Table<N>, op: OpId, row: &TermRef<N>) -> bool
    ensures { result ≡ spec_headed op row.now.value }
{
    match table.top(row) {
        Top::Int(_) => false,
        Top::App(f, _) => op.0 == f.0,
    }
}

fn is_after<N: Name>(table: &Table<N>, floor: Option<&TermRef<N>>, row: &TermRef<N>) -> bool
    ensures { IsTrue result ↔ After (option_copied floor.entry) row.now.value }
{
    match floor {
        None => true,
        Some(floor) => table.compare(floor, row).is_lt(),
    }
}

/// Whether the operator does not head the row's term, which has this sort and comes after the floor.
fn suits<N: Name>(
    table: &Table<N>,
    op: OpId,
    sort: SortId,
    floor: Option<&TermRef<N>>,
    row: &TermRef<N>,
) -> bool
    ensures { IsTrue result ↔ Suits N.shapes op sort (option_copied floor.entry) row.now.value }
{
    !is_headed(table, op, row) && is_sort(sort_of(table, row), sort) && is_after(table, floor, row)
}

/// The first of the rows that suits.
fn first_single<N: Name>(
    table: &Table<N>,
    op: OpId,
    rows: &[TermRef<N>],
    sort: SortId,
    floor: Option<&TermRef<N>>,
) -> Option<TermRef<N>>
    requires { Ascends (terms rows.now) }
    ensures { FindsLeastTerm (IsSingle N.shapes op (terms rows.now) sort (option_copied floor.entry)) result }
{
    let mut left = rows;
    'rows: while let [row, rest @ ..] = left {
        if suits(table, op, sort, floor, row) {
            row.known();
            return Some(row.again());
        }
        left = rest;
    }
    None
}

/// The least value that is one of the rows, each of which the variable may take at all its places
/// together; `count` arguments are shared out.
pub(crate) fn least_single<N: Name>(
    table: &Table<N>,
    op: OpId,
    places: &Places,
    count: usize,
    rows: &[TermRef<N>],
    sort: SortId,
    floor: Option<&TermRef<N>>,
) -> Option<TermRef<N>>
    requires { Ascends (terms rows.now) }
    ensures { FindsLeastTerm (IsAlone N.shapes op places.now count (terms rows.now) sort (option_copied floor.entry)) result }
{
    if may_take(places, count, 1) {
        first_single(table, op, rows, sort, floor)
    } else {
        None
    }
}
