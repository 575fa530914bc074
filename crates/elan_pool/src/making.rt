//! How a pool is made: docks, then a row of sides for each seat, then the seats.
ghost use Rattle.std.specs.Prelude.{◌≡◌, ℕ, ◌+◌, ◌-◌, ◌<◌, ◌≤◌, [], length, map, All, IfOk};
ghost use Rattle.crossbeam_deque.specs.Handles.{worker_view};
ghost use Rattle.elan_pool.specs.Balance.{tally};
ghost use Rattle.elan_pool.specs.Deques.{deque_of, deques_of};
ghost use Rattle.elan_pool.specs.Making.{Each, IsNewDock, IsLending, IsNewSide, IsNewRow, IsNewSeat};

use crate::deques::Deques;
use crate::dock::{Dock, NewDeque};
use crate::pool_name::PoolName;
use crate::seat::PoolSeat;
use crate::side::Side;
use elan_text::NoMemory;
use elan_tree::name::Name;
use std::alloc::Global;

impl<B: Drop, N: Name> Deques<B, N> {
    /// An empty deque for each worker.
    pub fn new(alloc: Global, workers: u32) -> Result<Deques<B, N>, NoMemory>
        requires { (1 ≤ workers) × (workers ≤ 64) }
        ensures { IfOk result (λ d. length (deques_of d) ≡ workers) }
    {
        let mut list = Vec::with_capacity(alloc, workers as usize)?;
        'workers: for _worker in 0..workers {
            list.push(NewDeque::new(alloc)?)?;
        }
        Ok(Deques { list })
    }
}

/// The docks of the deques, the first one last.
pub(crate) fn docks_of<B: Drop, N: Name, P: PoolName>(
    alloc: Global,
    deques: Vec<NewDeque<B, N>>,
) -> Result<Vec<Dock<B, N, P>>, NoMemory>
    requires name { map deque_of deques.items ≡ P.deques }
    requires few { length deques.items ≤ 64 }
    ensures len { IfOk result (λ v. length v.items ≡ length P.deques) }
    ensures new { IfOk result (λ v. Each (IsNewDock (length P.deques) 0) v.items) }
{
    let mut deques = deques;
    let mut docks = Vec::with_capacity(alloc, deques.len())?;
    'deques: while let Some(new) = deques.pop() {
        docks.push(Dock::named(new, deques.len() as u32))?;
    }
    Ok(docks)
}

/// A side of each dock, by number.
fn row<B: Drop, N: Name, P: PoolName>(
    alloc: Global,
    docks: &mut Vec<Dock<B, N, P>>,
    lent: u32,
) -> Result<Vec<Side<B, N, P>>, NoMemory>
    requires docks { Each (IsNewDock (length docks.old.items) lent) docks.old.items }
    requires few { (lent < length docks.old.items) × (length docks.old.items ≤ 64) }
    ensures len { length docks.new.items ≡ length docks.old.items }
    ensures docks { IfOk result (λ _. Each (IsNewDock (length docks.old.items) (lent + 1)) docks.new.items) }
    ensures row { IfOk result (λ v. IsNewRow (length docks.old.items) v.items) }
{
    let count = docks.len();
    let mut row = Vec::with_capacity(alloc, count)?;
    'sides: for number in 0..count {
        row.push(docks[count - 1 - number].side()?)?;
    }
    Ok(row)
}

/// As many rows as there are docks.
fn rows<B: Drop, N: Name, P: PoolName>(
    alloc: Global,
    docks: &mut Vec<Dock<B, N, P>>,
) -> Result<Vec<Vec<Side<B, N, P>>>, NoMemory>
    requires docks { Each (IsNewDock (length docks.old.items) 0) docks.old.items }
    requires few { length docks.old.items ≤ 64 }
    ensures len { length docks.new.items ≡ length docks.old.items }
    ensures docks { IfOk result (λ _.
        Each (IsNewDock (length docks.old.items) (length docks.old.items)) docks.new.items) }
    ensures count { IfOk result (λ v. length v.items ≡ length docks.old.items) }
    ensures rows { IfOk result (λ v. All (λ r. IsNewRow (length docks.old.items) r.items) v.items) }
{
    let count = docks.len();
    let mut rows = Vec::with_capacity(alloc, count)?;
    'rows: for lent in 0..count {
        rows.push(row(alloc, docks, lent as u32)?)?;
    }
    Ok(rows)
}

/// A seat at the dock of this number.
fn seat_of<B, N: Name, P: PoolName>(
    dock: Dock<B, N, P>,
    sides: Vec<Side<B, N, P>>,
) -> PoolSeat<B, N, P>
    requires dock { (dock.number < length sides.items)
        × (worker_view dock.lane ≡ tally (256 - length sides.items) [] []) }
    requires room { 64 ≤ dock.room }
    requires sides { IsNewRow (length sides.items) sides.items }
    requires few { length sides.items ≤ 64 }
    ensures { IsNewSeat (length sides.items) dock.number result }
{
    PoolSeat { dock, sides }
}

/// A seat for each dock, with a row of sides each.
fn seats_of<B: Drop, N: Name, P: PoolName>(
    alloc: Global,
    docks: Vec<Dock<B, N, P>>,
    rows: Vec<Vec<Side<B, N, P>>>,
) -> Result<Vec<PoolSeat<B, N, P>>, NoMemory>
    requires few { length docks.items ≤ 64 }
    requires docks { Each (IsNewDock (length docks.items) (length docks.items)) docks.items }
    requires count { length rows.items ≡ length docks.items }
    requires rows { All (λ r. IsNewRow (length docks.items) r.items) rows.items }
    ensures len { IfOk result (λ v. length v.items ≡ length docks.items) }
    ensures new { IfOk result (λ v. Each (IsNewSeat (length docks.items)) v.items) }
{
    let mut docks = docks;
    let mut rows = rows;
    let mut seats = Vec::with_capacity(alloc, docks.len())?;
    'docks: while let Some(dock) = docks.pop() {
        let Some(sides) = rows.pop() else {
            unreachable!()
        };
        seats.push(seat_of(dock, sides))?;
    }
    Ok(seats)
}

/// A seat at each of these docks, the first one of which is last.
pub(crate) fn seated<B: Drop, N: Name, P: PoolName>(
    alloc: Global,
    docks: Vec<Dock<B, N, P>>,
) -> Result<Vec<PoolSeat<B, N, P>>, NoMemory>
    requires few { length docks.items ≤ 64 }
    requires docks { Each (IsNewDock (length docks.items) 0) docks.items }
    ensures len { IfOk result (λ v. length v.items ≡ length docks.items) }
    ensures new { IfOk result (λ v. Each (IsNewSeat (length docks.items)) v.items) }
{
    let mut docks = docks;
    let rows = rows(alloc, &mut docks)?;
    seats_of(alloc, docks, rows)
}
