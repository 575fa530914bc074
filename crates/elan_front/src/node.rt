//! Whether a row is the one of a node.
ghost use Rattle.std.specs.Prelude.{◌≡◌, IsTrue};
ghost use Rattle.elan_terms.specs.Trees.{app_term, int_term};
ghost use Rattle.elan_table.specs.Rows.{terms};

use elan_table::{Name, Table, TermRef, Top};
use elan_terms::OpId;

/// Whether the rows have the same numbers, so that they mean the same terms.
fn are_same<N: Name>(some: &[TermRef<N>], others: &[TermRef<N>]) -> bool
    ensures { IsTrue result → terms some.now ≡ terms others.now }
{
    match some {
        [] => others.is_empty(),
        [a, some @ ..] => match others {
            [] => false,
            [b, others @ ..] => {
                if a.number() == b.number() {
                    a.agrees(b);
                    are_same(some, others)
                } else {
                    false
                }
            }
        },
    }
}

/// Whether the row is the one of this operator over these rows.
pub(crate) fn is_node<N: Name>(
    table: &Table<N>,
    row: &TermRef<N>,
    op: OpId,
    args: &[TermRef<N>],
) -> bool
    ensures { IsTrue result → row.now.value ≡ app_term op (terms args.now) }
{
    match table.top(row) {
        Top::Int(_) => false,
        Top::App(own, rows) => own.0 == op.0 && are_same(rows, args),
    }
}

/// Whether the row is the one of this integer.
pub(crate) fn is_integer<N: Name>(table: &Table<N>, row: &TermRef<N>, value: i64) -> bool
    ensures { IsTrue result → row.now.value ≡ int_term value }
{
    match table.top(row) {
        Top::Int(own) => own == value,
        Top::App(_, _) => false,
    }
}
