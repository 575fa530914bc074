//! The pool.
ghost use Rattle.std.specs.Prelude.{◌≡◌, ℕ, ◌≤◌, [], ◌∷◌, ◌++◌, length, IfOk, IfErr, MatchOption, MatchResult};
ghost use Rattle.elan_pool.specs.Balance.{numbers, SameSpots};
ghost use Rattle.elan_pool.specs.Deques.{deques_of};
ghost use Rattle.elan_pool.specs.Making.{Each, IsNewSeat};
ghost use Rattle.elan_pool.specs.Seats.{IsSameSeat, count_of, own_of, room_of, put_of, taken_of, missed_of};
ghost use Rattle.elan_pool.specs.Seats.{all_put, all_taken};
ghost use Rattle.elan_pool.specs.Taking.{Same, NoFall, Found, FoundNone};

use crate::closing::rest_of;
use crate::deques::Deques;
use crate::ends::take_by;
use crate::making::{docks_of, seated};
use crate::pool_name::PoolName;
use crate::seat::PoolSeat;
use elan_text::NoMemory;
use elan_tree::name::Name;
use elan_tree::posts::Spot;
use std::alloc::Global;
use std::marker::PhantomData;

/// What was left in the deques of a pool that is closed.
#[derive(Drop)]
pub struct Left<B, N: Name> {
    pub left: Vec<Spot<B, N>>,
}

/// One first-in-first-out deque of spots for each worker.
#[derive(Drop)]
pub struct Pool<B, N: Name, P: PoolName> {
    alloc: Global,
    seats: u32,
    of: PhantomData<(B, N, P)>,
    ghost count: { seats ≡ length P.deques },
}

impl<B: Drop, N: Name, P: PoolName> Pool<B, N, P> {
    /// A pool of these deques under the name that stands for them, and a seat at each, by number. Nothing is put, taken or
    /// missed yet.
    pub fn new(
        alloc: Global,
        deques: Deques<B, N>,
    ) -> Result<(Pool<B, N, P>, Vec<PoolSeat<B, N, P>>), NoMemory>
        requires { deques_of deques ≡ P.deques }
        ensures len { IfOk result (λ r. length r.1.items ≡ length P.deques) }
        ensures new { IfOk result (λ r. Each (IsNewSeat (length P.deques)) r.1.items) }
    {
        let Deques { list } = deques;
        let count = list.len() as u32;
        let docks = docks_of(alloc, list)?;
        let seats = seated(alloc, docks)?;
        Ok((
            Pool {
                alloc,
                seats: count,
                of: PhantomData,
            },
            seats,
        ))
    }

    /// Appends a spot to the seat's own deque, or hands it back, which it does only where the seat has put as many spots as
    /// the deque had slots when it was made.
    pub fn put(&self, seat: &mut PoolSeat<B, N, P>, spot: Spot<B, N>) -> Result<(), Spot<B, N>>
        ensures same { IsSameSeat seat.old seat.new }
        ensures put { MatchResult result
            (λ _. put_of seat.new ≡ put_of seat.old ++ spot.index ∷ [])
            (λ s. (s ≡ spot) × (put_of seat.new ≡ put_of seat.old)) }
        ensures refused { IfErr result (λ _. room_of seat.old ≤ length (put_of seat.old)) }
        ensures taken { Same (taken_of seat.old) (taken_of seat.new) }
        ensures missed { (d : ℕ) → missed_of seat.new d ≡ missed_of seat.old d }
    {
        let _ = self.seats;
        seat.dock.put(spot)
    }

    /// Takes the first spot of the seat's own deque, or else of the first other deque, by number, that gives one.
    pub fn take(&self, seat: &mut PoolSeat<B, N, P>) -> Option<Spot<B, N>>
        ensures same { IsSameSeat seat.old seat.new }
        ensures put { put_of seat.new ≡ put_of seat.old }
        ensures taken { MatchOption result
            (FoundNone (count_of seat.old) (taken_of seat.old) (taken_of seat.new)
            (missed_of seat.old) (missed_of seat.new))
            (λ s. Found (count_of seat.old) (own_of seat.old) s.index (taken_of seat.old) (taken_of seat.new)
            (missed_of seat.old) (missed_of seat.new)) }
        ensures fall { NoFall (missed_of seat.old) (missed_of seat.new) }
    {
        let _ = self.seats;
        take_by(seat)
    }

    /// How many seats there are.
    pub fn seats(&self) -> u32
        ensures { result ≡ length P.deques }
    {
        self.seats
    }

    /// Takes all seats, and gives what is left in the deques. Each spot that was put was taken or is left, as often as it was
    /// put. Without memory the pool, the seats and what is left are dropped.
    pub fn close(self, seats: Vec<PoolSeat<B, N, P>>) -> Result<Left<B, N>, NoMemory>
        requires { length seats.items ≡ length P.deques }
        ensures { IfOk result (λ l. SameSpots (all_put seats.items)
            (all_taken seats.items ++ numbers l.left.items)) }
    {
        let left = rest_of(self.alloc, seats)?;
        Ok(Left { left })
    }
}
