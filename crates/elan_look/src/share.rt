//! What the sought variable may take of the arguments that are left.
ghost use Rattle.std.specs.Prelude.{IsTrue, IfOk};
ghost use Rattle.elan_terms.specs.Term.{is_ac};
ghost use Rattle.elan_terms.specs.Ascending.{Ascends};
ghost use Rattle.elan_table.specs.Rows.{terms};
ghost use Rattle.elan_look.specs.Tells.{SaysIf};
ghost use Rattle.elan_look.specs.Nodes.{BoundsShare, has_place};

use crate::NoMemory;
use crate::count::Counts;
use crate::low::Low;
use crate::sight::Sight;
use elan_shares::least_share;
use elan_table::{Name, Table, TermRef};
use elan_terms::OpId;
use std::alloc::Global;
use std::sync::Wait;

/// The bound from the places of the sought variable, if it has any.
pub(crate) fn look_own<N: Name, R: Wait>(
    rt: &R,
    alloc: Global,
    table: &Table<N>,
    sight: &Sight<N>,
    op: OpId,
    counts: &Counts,
    rows: &[TermRef<N>],
) -> Result<Low<N>, NoMemory>
    requires ac { IsTrue (is_ac N.shapes op) }
    requires ascend { Ascends (terms rows.now) }
    ensures tells { IfOk result (BoundsShare N.shapes sight.now op (terms rows.now) counts.now) }
    ensures says { IfOk result (SaysIf (has_place sight.now counts.now)) }
{
    match sight.sought {
        None => Ok(Low::Any),
        Some(variable) => {
            if counts.sought == 0 {
                return Ok(Low::Any);
            }
            let places = counts.places();
            let floor = sight.floor.as_ref();
            match least_share(rt, alloc, table, op, rows, &places, variable.1, floor)? {
                None => Ok(Low::Empty),
                Some(row) => Ok(Low::At(row)),
            }
        }
    }
}
