//! A value that is a node of the operator.
ghost use Rattle.std.specs.Prelude.{◌≡◌, ◌<◌, ◌↔◌, IsTrue, IfOk};
ghost use Rattle.std.specs.Option.{option_copied};
ghost use Rattle.elan_terms.specs.Trees.{app_term};
ghost use Rattle.elan_terms.specs.Term.{is_ac};
ghost use Rattle.elan_terms.specs.Ascending.{Ascends};
ghost use Rattle.elan_table.specs.Rows.{MayStand, terms};
ghost use Rattle.elan_table.specs.Nodes.{MayMake};
ghost use Rattle.elan_shares.specs.Shares.{FindsLeastTerm};
ghost use Rattle.elan_shares.specs.Nodes.{MayStandUnder, Kept, IsNode};

use crate::NoMemory;
use crate::choice::first_args;
use crate::share::Places;
use elan_table::{Name, Table, TermRef};
use elan_terms::OpId;
use sqlite_items::Items;
use std::alloc::Global;
use std::sync::Wait;

/// Whether the row may be an argument of the operator, which is associative and commutative.
fn may_stand_under<N: Name>(table: &Table<N>, op: OpId, row: &TermRef<N>) -> bool
    ensures { IsTrue result ↔ MayStandUnder N.shapes op row.now.value }
{
    let twice = [row.again(), row.again()];
    table.takes(op, twice.as_slice())
}

/// Those of the rows that may be arguments of the operator.
fn able_rows<N: Name>(
    alloc: Global,
    table: &Table<N>,
    op: OpId,
    rows: &[TermRef<N>],
) -> Result<Items<TermRef<N>>, NoMemory>
    ensures { IfOk result (λ ws. Kept (MayStandUnder N.shapes op) (terms ws) (terms rows.now)) }
{
    let mut out = Items::new(alloc);
    let mut left = rows;
    'rows: while let [row, rest @ ..] = left {
        if may_stand_under(table, op, row) {
            out.push(row.again())?;
        }
        left = rest;
    }
    Ok(out)
}

/// A row of the node, of which holds what holds of every row.
fn made<N: Name, R: Wait>(
    rt: &R,
    table: &Table<N>,
    op: OpId,
    args: &[TermRef<N>],
) -> Result<TermRef<N>, NoMemory>
    requires { MayMake N.shapes op (terms args.now) }
    ensures value { IfOk result (λ row. row.value ≡ app_term op (terms args.now)) }
    ensures may { IfOk result (λ row. MayStand N.shapes row.value) }
{
    let row = table.intern(rt, op, args)?;
    row.known();
    Ok(row)
}

/// The least node after the floor over some of the rows, each place of the variable taking as many;
/// `count` arguments are shared out.
pub(crate) fn least_node<N: Name, R: Wait>(
    rt: &R,
    alloc: Global,
    table: &Table<N>,
    op: OpId,
    places: &Places,
    count: usize,
    rows: &[TermRef<N>],
    floor: Option<&TermRef<N>>,
) -> Result<Option<TermRef<N>>, NoMemory>
    requires ac { IsTrue (is_ac N.shapes op) }
    requires sought { 0 < places.now.sought }
    requires ascend { Ascends (terms rows.now) }
    ensures { IfOk result (FindsLeastTerm
        (IsNode N.shapes op places.now count (terms rows.now) (option_copied floor.entry))) }
{
    let able = able_rows(alloc, table, op, rows)?;
    match first_args(alloc, table, op, places, count, able.as_slice(), floor)? {
        None => Ok(None),
        Some(args) => {
            let row = made(rt, table, op, args.as_slice())?;
            Ok(Some(row))
        }
    }
}
