//! How a pool is closed: all docks come back, then all sides to their docks, then each deque is drained.
ghost use Rattle.std.specs.Prelude.{◌≡◌, ℕ, ◌+◌, ◌*◌, [], None, Some, length, IfOk, OnOk};
ghost use Rattle.crossbeam_deque.specs.Handles.{view, worker_view};
ghost use Rattle.elan_pool.specs.declared.rule.Tally.{Tally};
ghost use Rattle.elan_pool.specs.Making.{Each};
ghost use Rattle.elan_pool.specs.Closing.{IsAdditive, IsHome, IsBack, slot_sum, dock_sum, side_sum, row_sum};
ghost use Rattle.elan_pool.specs.Closing.{AddUp, SlotDrainsTo, DocksDrainTo, SeatsDrainTo};

use crate::dock::Dock;
use crate::pool_name::PoolName;
use crate::seat::PoolSeat;
use crate::side::Side;
use elan_text::NoMemory;
use elan_tree::name::Name;
use elan_tree::posts::Spot;
use std::alloc::Global;

/// A place for each dock, at which none is yet.
fn places<B: Drop, N: Name, P: PoolName>(
    alloc: Global,
    count: usize,
) -> Result<Vec<Option<Dock<B, N, P>>>, NoMemory>
    ensures len { IfOk result (λ v. length v.items ≡ count) }
    ensures home { IfOk result (λ v. Each IsHome v.items) }
    ensures none { IfOk result (λ v. (f : Tally → ℕ) → dock_sum f v.items ≡ 0) }
{
    let mut docks = Vec::with_capacity(alloc, count)?;
    'places: for _place in 0..count {
        docks.push(None)?;
    }
    Ok(docks)
}

/// Puts a dock at its place, where no other can be.
fn place<B: Drop, N: Name, P: PoolName>(slot: &mut Option<Dock<B, N, P>>, dock: Dock<B, N, P>)
    requires { IsHome dock.number slot.old }
    ensures was { slot.old ≡ None }
    ensures now { slot.new ≡ Some dock }
{
    if let Some(other) = slot {
        other.clash(dock);
        unreachable!()
    }
    *slot = Some(dock);
}

/// Brings a dock back.
fn come_back<B: Drop, N: Name, P: PoolName>(
    docks: &mut Vec<Option<Dock<B, N, P>>>,
    dock: Dock<B, N, P>,
)
    requires len { length docks.old.items ≡ length P.deques }
    requires home { Each IsHome docks.old.items }
    ensures len { length docks.new.items ≡ length docks.old.items }
    ensures home { Each IsHome docks.new.items }
    ensures sum { (f : Tally → ℕ)
        → dock_sum f docks.new.items ≡ dock_sum f docks.old.items + f (worker_view dock.lane) }
{
    let at = dock.number as usize;
    place(&mut docks[at], dock);
}

/// The docks of all seats, by number, and their rows of sides.
fn parted<B: Drop, N: Name, P: PoolName>(
    alloc: Global,
    seats: Vec<PoolSeat<B, N, P>>,
) -> Result<(Vec<Option<Dock<B, N, P>>>, Vec<Vec<Side<B, N, P>>>), NoMemory>
    requires { length seats.items ≡ length P.deques }
    ensures len { IfOk result (λ r. length r.0.items ≡ length P.deques) }
    ensures back { IfOk result (λ r. Each IsBack r.0.items) }
    ensures sum { IfOk result (λ r. AddUp r.0.items r.1.items seats.items) }
{
    let mut seats = seats;
    let mut docks = places(alloc, seats.len())?;
    let mut rows = Vec::with_capacity(alloc, seats.len())?;
    'seats: while let Some(seat) = seats.pop() {
        let PoolSeat { dock, sides } = seat;
        come_back(&mut docks, dock);
        rows.push(sides)?;
    }
    Ok((docks, rows))
}

/// Brings a side back to the dock at this place.
fn take_back<B: Drop, N: Name, P: PoolName>(slot: &mut Option<Dock<B, N, P>>, side: Side<B, N, P>)
    requires { IsBack side.number slot.old }
    ensures back { IsBack side.number slot.new }
    ensures sum { (f : Tally → ℕ) → IsAdditive f
        → slot_sum f slot.new ≡ slot_sum f slot.old + f (view side.key) }
{
    match slot {
        Some(dock) => dock.absorb(side),
        None => unreachable!(),
    }
}

/// Brings the sides of a row back to their docks.
fn gather<B: Drop, N: Name, P: PoolName>(
    docks: &mut Vec<Option<Dock<B, N, P>>>,
    sides: Vec<Side<B, N, P>>,
)
    requires len { length docks.old.items ≡ length P.deques }
    requires back { Each IsBack docks.old.items }
    ensures len { length docks.new.items ≡ length docks.old.items }
    ensures back { Each IsBack docks.new.items }
    ensures sum { (f : Tally → ℕ) → IsAdditive f
        → dock_sum f docks.new.items ≡ dock_sum f docks.old.items + side_sum f sides.items }
{
    let mut sides = sides;
    'sides: while let Some(side) = sides.pop() {
        let at = side.number as usize;
        take_back(&mut docks[at], side);
    }
}

/// Brings the sides of all rows back to their docks.
fn gather_all<B: Drop, N: Name, P: PoolName>(
    docks: &mut Vec<Option<Dock<B, N, P>>>,
    rows: Vec<Vec<Side<B, N, P>>>,
)
    requires len { length docks.old.items ≡ length P.deques }
    requires back { Each IsBack docks.old.items }
    ensures len { length docks.new.items ≡ length docks.old.items }
    ensures sum { (f : Tally → ℕ) → IsAdditive f
        → dock_sum f docks.new.items ≡ dock_sum f docks.old.items + row_sum f rows.items }
{
    let mut rows = rows;
    'rows: while let Some(sides) = rows.pop() {
        gather(docks, sides);
    }
}

/// Takes what is left in the deque of a dock that has all parts.
fn drain<B: Drop, N: Name, P: PoolName>(
    slot: Option<Dock<B, N, P>>,
    left: &mut Vec<Spot<B, N>>,
) -> Result<(), NoMemory>
    requires { slot_sum (λ v. v.parts) slot ≡ 256 }
    ensures { OnOk result (SlotDrainsTo left.old.items slot left.new.items) }
{
    match slot {
        Some(dock) => dock.drain(left),
        None => unreachable!(),
    }
}

/// What is left in the deques, once each dock has all parts.
fn drained<B: Drop, N: Name, P: PoolName>(
    alloc: Global,
    docks: Vec<Option<Dock<B, N, P>>>,
) -> Result<Vec<Spot<B, N>>, NoMemory>
    requires { dock_sum (λ v. v.parts) docks.items ≡ 256 * length docks.items }
    ensures { IfOk result (λ left. DocksDrainTo docks.items left.items) }
{
    let mut docks = docks;
    let mut left = Vec::new(alloc);
    'docks: while let Some(slot) = docks.pop() {
        drain(slot, &mut left)?;
    }
    Ok(left)
}

/// What is left in the deques of all seats.
pub(crate) fn rest_of<B: Drop, N: Name, P: PoolName>(
    alloc: Global,
    seats: Vec<PoolSeat<B, N, P>>,
) -> Result<Vec<Spot<B, N>>, NoMemory>
    requires { length seats.items ≡ length P.deques }
    ensures { IfOk result (λ left. SeatsDrainTo seats.items left.items) }
{
    let (mut docks, rows) = parted(alloc, seats)?;
    gather_all(&mut docks, rows);
    let left = drained(alloc, docks)?;
    Ok(left)
}
