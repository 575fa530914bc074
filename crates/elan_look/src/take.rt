//! Arguments of a node that a term brings, taken away.
ghost use Rattle.std.specs.Prelude.{◌≡◌, ◌∷◌, [], option_map, IfOk};
ghost use Rattle.elan_terms.specs.Ascending.{Ascends};
ghost use Rattle.elan_terms.specs.Term.{arms_under};
ghost use Rattle.elan_table.specs.Rows.{terms};
ghost use Rattle.elan_bags.specs.Bags.{IsMinus};

use crate::NoMemory;
use elan_bags::minus;
use elan_table::{Name, Table, TermRef, Top};
use elan_terms::OpId;
use sqlite_items::Items;
use std::alloc::Global;

/// A list of the same rows.
pub(crate) fn copy_rows<N: Name>(
    alloc: Global,
    rows: &[TermRef<N>],
) -> Result<Items<TermRef<N>>, NoMemory>
    ensures { IfOk result (λ copy. copy ≡ rows.now) }
{
    let mut copy = Items::new(alloc);
    for row in rows {
        copy.push(row.again())?;
    }
    Ok(copy)
}

fn alone<N: Name>(alloc: Global, row: &TermRef<N>) -> Result<Items<TermRef<N>>, NoMemory>
    ensures { IfOk result (λ rows. rows ≡ row.now ∷ []) }
{
    let mut rows = Items::new(alloc);
    rows.push(row.again())?;
    Ok(rows)
}

/// The rows, which ascend, without one of this term; `None` where there is none.
pub(crate) fn take_one<N: Name>(
    alloc: Global,
    table: &Table<N>,
    row: &TermRef<N>,
    rows: &[TermRef<N>],
) -> Result<Option<Items<TermRef<N>>>, NoMemory>
    requires { Ascends (terms rows.now) }
    ensures { IfOk result (λ found.
        IsMinus (terms rows.now) (row.now.value ∷ []) (option_map terms found)) }
{
    let one = alone(alloc, row)?;
    minus(alloc, table, rows, one.as_slice())
}

/// The rows, which ascend, without those that a term brings under an operator; `None` where they are
/// not all there.
pub(crate) fn take_arms<N: Name>(
    alloc: Global,
    table: &Table<N>,
    op: OpId,
    row: &TermRef<N>,
    rows: &[TermRef<N>],
) -> Result<Option<Items<TermRef<N>>>, NoMemory>
    requires { Ascends (terms rows.now) }
    ensures { IfOk result (λ found.
        IsMinus (terms rows.now) (arms_under op row.now.value) (option_map terms found)) }
{
    match table.top(row) {
        Top::Int(_) => take_one(alloc, table, row, rows),
        Top::App(f, args) => {
            if op.0 == f.0 {
                minus(alloc, table, rows, args)
            } else {
                take_one(alloc, table, row, rows)
            }
        }
    }
}
