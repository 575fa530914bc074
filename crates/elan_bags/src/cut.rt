//! Where a row stands to others that ascend.
ghost use Rattle.std.specs.Prelude.{◌≡◌, drop};
ghost use Rattle.elan_table.specs.Rows.{terms};
ghost use Rattle.elan_bags.specs.Cuts as spec;

use elan_table::{Name, Table, TermRef};
use std::cmp::Ordering;

/// How the row stands to the first of the others; before it where there is none.
pub(crate) fn place<N: Name>(table: &Table<N>, row: &TermRef<N>, others: &[TermRef<N>]) -> Ordering
    ensures { result ≡ spec.against row.now.value (terms others.now) }
{
    match others {
        [] => Ordering::Less,
        [first, ..] => table.compare(row, first),
    }
}

/// The rows after the first.
pub(crate) fn later<'a, N: Name>(rows: &'a [TermRef<N>]) -> &'a [TermRef<N>]
    ensures { terms result.now ≡ drop 1 (terms rows.now) }
{
    match rows {
        [] => rows,
        [_, rest @ ..] => rest,
    }
}

/// The others from the first on that does not stand before the row.
pub(crate) fn since<'a, N: Name>(
    table: &Table<N>,
    row: &TermRef<N>,
    others: &'a [TermRef<N>],
) -> &'a [TermRef<N>]
    ensures { terms result.now ≡ spec.since row.now.value (terms others.now) }
{
    let mut left = others;
    'others: while let [other, rest @ ..] = left {
        if !table.compare(row, other).is_gt() {
            return left;
        }
        left = rest;
    }
    left
}

/// The others from the first on that stands after the row.
pub(crate) fn beyond<'a, N: Name>(
    table: &Table<N>,
    row: &TermRef<N>,
    others: &'a [TermRef<N>],
) -> &'a [TermRef<N>]
    ensures { terms result.now ≡ spec.beyond row.now.value (terms others.now) }
{
    let mut left = others;
    'others: while let [other, rest @ ..] = left {
        if table.compare(other, row).is_gt() {
            return left;
        }
        left = rest;
    }
    left
}
