//! The workers of a search, each with a seat at the board.
ghost use Rattle.std.specs.Prelude.{◌≡◌, ◌≤◌, length, IfOk};

use elan_board::seat::Seat;
use elan_text::NoMemory;
use std::alloc::Global;
use std::sync::ledger::Ledger;

/// A worker: its number, its seat, and how many cut places it last read of, 0 where it has not read yet.
#[derive(Drop)]
pub(crate) struct Worker<L: Ledger> {
    pub(crate) number: u32,
    pub(crate) seat: Seat<L>,
    pub(crate) cuts: u64,
}

/// A worker for each seat. Worker 0 stands last, since the last job is that of the caller's thread.
pub(crate) fn crew<L: Ledger>(
    alloc: Global,
    mut seats: Vec<Seat<L>>,
) -> Result<Vec<Worker<L>>, NoMemory>
    requires { length seats.items ≤ 64 }
    ensures { IfOk result (λ v. length v.items ≡ length seats.items) }
{
    let mut workers = Vec::with_capacity(alloc, seats.len())?;
    'seats: while let Some(seat) = seats.pop() {
        let number = seats.len() as u32;
        workers.push(Worker {
            number,
            seat,
            cuts: 0,
        })?;
    }
    Ok(workers)
}
