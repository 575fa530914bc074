//! The least term that a variable may take.
ghost use Rattle.std.specs.Prelude.{◌≡◌, ◌<◌, IfOk, IsTrue};
ghost use Rattle.std.specs.Option.{option_copied};
ghost use Rattle.elan_terms.specs.Term.{is_ac};
ghost use Rattle.elan_terms.specs.Ascending.{Ascends};
ghost use Rattle.elan_table.specs.Rows.{terms};
ghost use Rattle.elan_shares.specs.Shares.{IsShare, FindsLeastTerm};
ghost use Rattle.elan_shares.specs.Lesser as spec;

use crate::NoMemory;
use crate::node::least_node;
use crate::single::{least_single, makes};
use elan_bags::over;
use elan_table::{Name, Table, TermRef};
use elan_terms::{OpId, SortId};
use std::alloc::Global;
use std::sync::Wait;

/// How many places under an operator are the variable's that is sought, other variables', and those
/// of patterns that are no variables.
#[derive(Drop)]
pub struct Places {
    pub sought: usize,
    pub free: usize,
    pub others: usize,
}

/// The least term after the floor that the variable may take at each of its places; `None` where
/// there is none. The rows are the arguments that are to be shared out: each goes to one place, a
/// variable's place takes at least one, and the place of another pattern takes exactly one.
pub fn least_share<N: Name, R: Wait>(
    rt: &R,
    alloc: Global,
    table: &Table<N>,
    op: OpId,
    rows: &[TermRef<N>],
    places: &Places,
    sort: SortId,
    floor: Option<&TermRef<N>>,
) -> Result<Option<TermRef<N>>, NoMemory>
    requires ac { IsTrue (is_ac N.shapes op) }
    requires ascend { Ascends (terms rows.now) }
    requires placed { 0 < places.now.sought }
    ensures { IfOk result (FindsLeastTerm (IsShare N.shapes op (terms rows.now) places.now sort (option_copied floor.entry))) }
{
    let shared = over(alloc, table, places.sought, rows)?;
    let single = least_single(
        table,
        op,
        places,
        rows.len(),
        shared.as_slice(),
        sort,
        floor,
    );
    if !makes(table, op, sort) {
        return Ok(single);
    }
    let node = least_node(
        rt,
        alloc,
        table,
        op,
        places,
        rows.len(),
        shared.as_slice(),
        floor,
    )?;
    Ok(lesser(table, single, node))
}

/// The lesser of two values, if any is there.
fn lesser<N: Name>(
    table: &Table<N>,
    one: Option<TermRef<N>>,
    other: Option<TermRef<N>>,
) -> Option<TermRef<N>>
    ensures { result ≡ spec.lesser one other }
{
    match one {
        None => other,
        Some(a) => match other {
            None => Some(a),
            Some(b) => {
                if table.compare(&a, &b).is_gt() {
                    Some(b)
                } else {
                    Some(a)
                }
            }
        },
    }
}
